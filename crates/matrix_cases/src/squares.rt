//! Square matrices, made of single entries.
ghost use Rattle.std.specs.Prelude.{IfOk};
ghost use Rattle.quad_mat.specs.Matrices.{HasSize};

use cell_sets::Cell;
use quad_mat::{Mat, union};
use std::alloc::{AllocError, Global};

/// The matrix of so many rows and columns with this cell in row i and column j alone. It has no
/// entry where that place is outside.
pub fn single<C: Cell>(
    alloc: Global,
    size: u32,
    i: u32,
    j: u32,
    cell: C,
) -> Result<Mat<C>, AllocError>
    ensures { IfOk result (λ mat. HasSize size size mat) }
{
    if i >= size {
        return Ok(Mat::zero(size, size));
    }
    if j >= size {
        return Ok(Mat::zero(size, size));
    }
    let mat: Mat<C> = Mat::at(alloc, size, size, i, j, cell)?;
    Ok(mat)
}

/// The matrix with one entry more, which is united with what stands there. A matrix of another size
/// stays as it is.
pub fn with_entry<C: Cell>(
    alloc: Global,
    mat: Mat<C>,
    size: u32,
    i: u32,
    j: u32,
    cell: C,
) -> Result<Mat<C>, AllocError> {
    if mat.rows() != size {
        return Ok(mat);
    }
    if mat.cols() != size {
        return Ok(mat);
    }
    let one: Mat<C> = single(alloc, size, i, j, cell)?;
    let more: Mat<C> = union(alloc, &mat, &one)?;
    Ok(more)
}
