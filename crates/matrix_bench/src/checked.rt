//! Calls on matrices that look at the sizes first. `None` is that these do not fit, or that memory
//! ran out.
use binary_form::Binary;
use cell_sets::Cell;
use quad_mat::{Cut, Mat, gather, product, union};
use std::alloc::Global;

/// The matrix with one entry.
pub fn single<C: Cell>(
    alloc: Global,
    rows: u32,
    columns: u32,
    i: u32,
    j: u32,
    cell: C,
) -> Option<Mat<C>> {
    if i >= rows {
        return None;
    }
    if j >= columns {
        return None;
    }
    Mat::at(alloc, rows, columns, i, j, cell).ok()
}

/// The cell of the entry, None also where it is empty.
pub fn entry<C: Cell>(mat: &Mat<C>, i: u32, j: u32) -> Option<&C> {
    if i >= mat.rows() {
        return None;
    }
    if j >= mat.cols() {
        return None;
    }
    mat.get(i, j)
}

/// The union of two matrices of one size.
pub fn united<C: Cell>(alloc: Global, a: &Mat<C>, b: &Mat<C>) -> Option<Mat<C>> {
    if a.rows() != b.rows() {
        return None;
    }
    if a.cols() != b.cols() {
        return None;
    }
    union(alloc, a, b).ok()
}

/// The product of two matrices.
pub fn multiplied<C: Cell>(
    alloc: Global,
    form: &Binary<C>,
    a: &Mat<C>,
    b: &Mat<C>,
) -> Option<Mat<C>> {
    if a.cols() != b.rows() {
        return None;
    }
    product(alloc, form, a, b).ok()
}

/// The four parts before and from this row and this column on.
pub fn cut_at<C: Cell>(alloc: Global, mat: &Mat<C>, row: u32, column: u32) -> Option<Cut<C>> {
    if row > mat.rows() {
        return None;
    }
    if column > mat.cols() {
        return None;
    }
    mat.cut(alloc, row, column).ok()
}

/// The matrix of these four parts.
pub fn gathered<C: Cell>(alloc: Global, cut: &Cut<C>) -> Option<Mat<C>> {
    if cut.a11.rows() != cut.a12.rows() {
        return None;
    }
    if cut.a21.rows() != cut.a22.rows() {
        return None;
    }
    if cut.a11.cols() != cut.a21.cols() {
        return None;
    }
    if cut.a12.cols() != cut.a22.cols() {
        return None;
    }
    let _rows = cut.a11.rows().checked_add(cut.a21.rows())?;
    let _columns = cut.a11.cols().checked_add(cut.a12.cols())?;
    gather(alloc, cut).ok()
}

/// One matrix above another.
pub fn stacked<C: Cell>(alloc: Global, upper: &Mat<C>, lower: &Mat<C>) -> Option<Mat<C>> {
    let cut = Cut {
        a11: upper.share(alloc).ok()?,
        a12: Mat::zero(upper.rows(), 0),
        a21: lower.share(alloc).ok()?,
        a22: Mat::zero(lower.rows(), 0),
    };
    gathered(alloc, &cut)
}
