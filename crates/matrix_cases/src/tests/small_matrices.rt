//! Small matrices: parts at each border, unions, and products by hand.
ghost use Rattle.std.specs.Prelude.{◌≡◌, IfOk};

use super::samples::{product_of, symbols_at};
use cell_sets::{Cell, ListCell};
use quad_mat::{Cut, Mat, gather, union};
use std::alloc::{AllocError, Global};
use std::test::*;

/// The symbols in one row and column.
type Place = (u32, u32, &'static [u16]);

fn cell_of(alloc: Global, symbols: &[u16]) -> Result<ListCell, AllocError> {
    let mut cell = ListCell::empty();
    for symbol in symbols {
        cell.insert(alloc, *symbol)?;
    }
    Ok(cell)
}

/// A matrix with these symbols at one place, and nothing where the place is outside.
fn single(alloc: Global, rows: u32, columns: u32, place: Place) -> Result<Mat<ListCell>, AllocError>
    ensures rows { IfOk result (λ mat. mat.rows ≡ rows) }
    ensures columns { IfOk result (λ mat. mat.columns ≡ columns) }
{
    let (i, j, symbols) = place;
    if i >= rows {
        return Ok(Mat::zero(rows, columns));
    }
    if j >= columns {
        return Ok(Mat::zero(rows, columns));
    }
    let cell = cell_of(alloc, symbols)?;
    let mat: Mat<ListCell> = Mat::at(alloc, rows, columns, i, j, cell)?;
    Ok(mat)
}

/// The union of two matrices, the first where their sizes differ.
fn united(alloc: Global, a: Mat<ListCell>, b: &Mat<ListCell>) -> Result<Mat<ListCell>, AllocError> {
    if a.rows() != b.rows() {
        return Ok(a);
    }
    if a.cols() != b.cols() {
        return Ok(a);
    }
    let both: Mat<ListCell> = union(alloc, &a, b)?;
    Ok(both)
}

/// The matrix with these symbols at these places.
fn mat_of(
    alloc: Global,
    rows: u32,
    columns: u32,
    places: &[Place],
) -> Result<Mat<ListCell>, AllocError> {
    let mut mat: Mat<ListCell> = Mat::zero(rows, columns);
    for place in places {
        let one: Mat<ListCell> = single(alloc, rows, columns, *place)?;
        mat = united(alloc, mat, &one)?;
    }
    Ok(mat)
}

/// The symbols that the list has for a place: none where it has no such place.
fn wanted(places: &[Place], i: u32, j: u32) -> &'static [u16] {
    for (row, column, symbols) in places {
        if (*row, *column) == (i, j) {
            return symbols;
        }
    }
    &[]
}

/// The first column of the row that has not the symbols of the list, if there is one.
fn differs_in_row(mat: &Mat<ListCell>, places: &[Place], i: u32) -> Option<u32> {
    for j in 0..mat.cols() {
        if symbols_at(mat, i, j) != wanted(places, i, j) {
            return Some(j);
        }
    }
    None
}

/// The first place that has not the symbols of the list, if there is one.
fn differs_at(mat: &Mat<ListCell>, places: &[Place]) -> Option<(u32, u32)> {
    for i in 0..mat.rows() {
        if let Some(j) = differs_in_row(mat, places, i) {
            return Some((i, j));
        }
    }
    None
}

/// Rows, the middle, and columns; the places of the two factors, and those of their product.
type Case = (
    (u32, u32, u32),
    &'static [Place],
    &'static [Place],
    &'static [Place],
);

/// Products by hand.
const PRODUCTS: &[Case] = &[
    (
        (1, 2, 1),
        &[(0, 1, &[0])],
        &[(1, 0, &[3])],
        &[(0, 0, &[0, 2, 4])],
    ),
    ((1, 2, 1), &[(0, 0, &[0])], &[(1, 0, &[3])], &[]),
    ((2, 0, 3), &[], &[], &[]),
    ((0, 1, 2), &[], &[(0, 1, &[3])], &[]),
    ((2, 1, 0), &[(0, 0, &[0])], &[], &[]),
    (
        (3, 1, 2),
        ALL_ROWS,
        &[(0, 1, &[4])],
        &[(0, 1, &[3]), (1, 1, &[3]), (2, 1, &[3])],
    ),
    (
        (2, 2, 2),
        &[(0, 0, &[0]), (1, 1, &[0])],
        FACTOR,
        &[(0, 0, &[3]), (1, 0, &[0, 2, 4])],
    ),
    (
        (1, 2, 1),
        &[(0, 0, &[0]), (0, 1, &[0])],
        FACTOR,
        &[(0, 0, &[0, 2, 3, 4])],
    ),
];

#[test]
fn products_by_hand(rt: HostRuntime) -> Result<(), Fail> {
    for ((rows, middle, columns), left, right, places) in PRODUCTS {
        let a: Mat<ListCell> = mat_of(rt.alloc(), *rows, *middle, left)?;
        let b: Mat<ListCell> = mat_of(rt.alloc(), *middle, *columns, right)?;
        let made: Mat<ListCell> = product_of(rt.alloc(), &a, &b).ok_or("a product")?;
        assert_eq!(rt;
            (made.rows(), made.cols()),
            (*rows, *columns),
            "at {left:?}, {right:?}"
        );
        assert_eq!(rt; differs_at(&made, places), None, "at {left:?}, {right:?}");
    }
    Ok(())
}

/// S in each of three rows of one column.
const ALL_ROWS: &[Place] = &[(0, 0, &[0]), (1, 0, &[0]), (2, 0, &[0])];

/// The last of three in the upper row, the last two in the lower one, and an entry that makes
/// nothing.
const FACTOR: &[Place] = &[(0, 0, &[4]), (1, 0, &[3]), (1, 1, &[5])];

/// The whole of the four parts of a matrix, cut before this row and this column; the matrix, where
/// these are outside.
fn cut_and_gathered(
    alloc: Global,
    mat: &Mat<ListCell>,
    row: u32,
    column: u32,
) -> Result<Mat<ListCell>, AllocError> {
    if row > mat.rows() {
        return mat.share(alloc);
    }
    if column > mat.cols() {
        return mat.share(alloc);
    }
    let cut: Cut<ListCell> = mat.cut(alloc, row, column)?;
    let whole: Mat<ListCell> = gather(alloc, &cut)?;
    Ok(whole)
}

#[test]
fn parts_at_each_border_are_the_whole(rt: HostRuntime) -> Result<(), Fail> {
    let mat: Mat<ListCell> = mat_of(rt.alloc(), 3, 3, CORNERS)?;
    for row in 0..4 {
        for column in 0..4 {
            let whole: Mat<ListCell> = cut_and_gathered(rt.alloc(), &mat, row, column)?;
            assert_eq!(rt; (whole.rows(), whole.cols()), (3, 3), "at {row}, {column}");
            assert_eq!(rt; differs_at(&whole, CORNERS), None, "at {row}, {column}");
        }
    }
    Ok(())
}

/// Entries at two corners and in the middle.
const CORNERS: &[Place] = &[(0, 2, &[0]), (1, 1, &[0, 4]), (2, 0, &[0])];

/// A matrix with a second one below, where both have as many columns.
fn stacked(alloc: Global, mat: &Mat<ListCell>) -> Result<Mat<ListCell>, AllocError> {
    let rows = mat.rows();
    let columns = mat.cols();
    if rows > 16384 {
        return mat.share(alloc);
    }
    if columns > 16384 {
        return mat.share(alloc);
    }
    let cut = Cut {
        a11: mat.share(alloc)?,
        a12: Mat::zero(rows, 0),
        a21: mat.share(alloc)?,
        a22: Mat::zero(rows, 0),
    };
    let whole: Mat<ListCell> = gather(alloc, &cut)?;
    Ok(whole)
}

/// A matrix twice along the diagonal.
fn along_the_diagonal(alloc: Global, mat: &Mat<ListCell>) -> Result<Mat<ListCell>, AllocError> {
    let rows = mat.rows();
    let columns = mat.cols();
    if rows > 16384 {
        return mat.share(alloc);
    }
    if columns > 16384 {
        return mat.share(alloc);
    }
    let cut = Cut {
        a11: mat.share(alloc)?,
        a12: Mat::zero(rows, columns),
        a21: Mat::zero(rows, columns),
        a22: mat.share(alloc)?,
    };
    let whole: Mat<ListCell> = gather(alloc, &cut)?;
    Ok(whole)
}

#[test]
fn equal_rows_are_multiplied(rt: HostRuntime) -> Result<(), Fail> {
    let mut a: Mat<ListCell> = mat_of(rt.alloc(), 1, 2, &[(0, 0, &[0]), (0, 1, &[0])])?;
    for _ in 0..14 {
        a = stacked(rt.alloc(), &a)?;
    }
    let b: Mat<ListCell> = mat_of(rt.alloc(), 2, 2, FACTOR)?;
    let made: Mat<ListCell> = product_of(rt.alloc(), &a, &b).ok_or("a product")?;
    assert_eq!(rt; (made.rows(), made.cols()), (16384, 2));
    for i in [0, 1, 8191, 16383] {
        assert_eq!(rt;
            symbols_at(&made, i, 0),
            [0, 2, 3, 4].as_slice(),
            "in row {i}"
        );
        assert_eq!(rt; symbols_at(&made, i, 1).len(), 0, "in row {i}");
    }
    Ok(())
}

#[test]
fn different_rows_are_multiplied(rt: HostRuntime) -> Result<(), Fail> {
    let mut a: Mat<ListCell> = mat_of(rt.alloc(), 1, 1, &[(0, 0, &[0])])?;
    let mut b: Mat<ListCell> = mat_of(rt.alloc(), 1, 1, &[(0, 0, &[3])])?;
    for _ in 0..14 {
        a = along_the_diagonal(rt.alloc(), &a)?;
        b = along_the_diagonal(rt.alloc(), &b)?;
    }
    let made: Mat<ListCell> = product_of(rt.alloc(), &a, &b).ok_or("a product")?;
    assert_eq!(rt; (made.rows(), made.cols()), (16384, 16384));
    for i in [0, 1, 8191, 16383] {
        assert_eq!(rt; symbols_at(&made, i, i), [0, 2, 4].as_slice(), "in row {i}");
        assert_eq!(rt; symbols_at(&made, i, 16383 - i).len(), 0, "in row {i}");
    }
    Ok(())
}
