//! A product of a hundred rows and columns, each entry by hand. That each maker within succeeds
//! shows in it: one that always answered want of memory would make no product.
use super::samples::{product_of, symbols_at};
use crate::with_entry;
use cell_sets::{Cell, ListCell};
use quad_mat::Mat;
use std::alloc::{AllocError, Global};
use std::test::*;

/// How many rows and columns there are.
const SIZE: u32 = 100;

fn cell_of(alloc: Global, symbol: u16) -> Result<ListCell, AllocError> {
    let mut cell = ListCell::empty();
    cell.insert(alloc, symbol)?;
    Ok(cell)
}

/// The matrix with one symbol along the diagonal, and one beside it on the right.
fn two_diagonals(alloc: Global, on: u16, beside: u16) -> Result<Mat<ListCell>, AllocError> {
    let mut mat: Mat<ListCell> = Mat::zero(SIZE, SIZE);
    for i in 0..SIZE {
        let cell = cell_of(alloc, on)?;
        mat = with_entry(alloc, mat, SIZE, i, i, cell)?;
        let cell = cell_of(alloc, beside)?;
        mat = with_entry(alloc, mat, SIZE, i, i + 1, cell)?;
    }
    Ok(mat)
}

/// What S on and beside the diagonal makes with the last of three on it and the last two beside it.
fn wanted(i: u32, j: u32) -> &'static [u16] {
    match j.checked_sub(i) {
        Some(0) => &[3],
        Some(1) => &[0, 2, 3, 4],
        Some(2) => &[0, 2, 4],
        _ => &[],
    }
}

/// The first column of the row that has not the symbols that are wanted, if there is one.
fn differs_in_row(mat: &Mat<ListCell>, i: u32) -> Option<u32> {
    for j in 0..SIZE {
        if symbols_at(mat, i, j) != wanted(i, j) {
            return Some(j);
        }
    }
    None
}

#[test]
fn two_diagonals_are_multiplied(rt: HostRuntime) -> Result<(), Fail> {
    let a: Mat<ListCell> = two_diagonals(rt.alloc(), 0, 0)?;
    let b: Mat<ListCell> = two_diagonals(rt.alloc(), 4, 3)?;
    let made: Mat<ListCell> = product_of(rt.alloc(), &a, &b).ok_or("a product")?;
    assert_eq!(rt; (made.rows(), made.cols()), (SIZE, SIZE));
    for i in 0..SIZE {
        assert_eq!(rt; differs_in_row(&made, i), None, "in row {i}");
    }
    Ok(())
}
