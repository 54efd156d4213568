//! Random matrices beside dense ones.
use crate::checked::{cut_at, entry, gathered, multiplied, single, united};
use crate::dense::Dense;
use crate::draw::Draw;
use binary_form::Binary;
use cell_sets::{Bits, Cell};
use quad_mat::Mat;
use std::alloc::Global;

/// The most rows, and the most columns, of a matrix.
const MOST: u32 = 8;

/// Symbols are below it.
const SYMBOLS: u32 = 22;

/// A matrix, and a dense one that has the same entries.
#[derive(Drop)]
struct Twins {
    sparse: Mat<Bits<1>>,
    dense: Dense,
}

/// A cell of some symbols, and the same as bits. It may be empty.
fn random_cell(alloc: Global, draw: &mut Draw) -> Option<(Bits<1>, u64)> {
    let mut cell = Bits::empty();
    let mut bits = 0;
    for _symbol in 0..draw.below(4) {
        let symbol = draw.below(SYMBOLS);
        if symbol < 64 {
            cell.insert(alloc, symbol as u16).ok()?;
            bits |= 1_u64 << symbol;
        }
    }
    Some((cell, bits))
}

/// A matrix of this size. Some of its rows are equal to one drawn before.
fn random(alloc: Global, draw: &mut Draw, rows: u32, columns: u32) -> Option<Twins> {
    let mut twins = Twins {
        sparse: Mat::zero(rows, columns),
        dense: Dense::zero(alloc, rows, columns).ok()?,
    };
    for _entry in 0..draw.below(12) {
        let (cell, bits) = random_cell(alloc, draw)?;
        let j = draw.below(columns);
        let first = draw.below(rows);
        for i in first..rows.min(first.saturating_add(draw.below(3))) {
            if j < columns {
                let one = single(alloc, rows, columns, i, j, cell)?;
                twins.sparse = united(alloc, &twins.sparse, &one)?;
                twins.dense.add(i, j, bits);
            }
        }
    }
    Some(twins)
}

/// The symbols of the cell as bits.
fn bits_in(cell: &Bits<1>) -> u64 {
    let mut bits = 0;
    for symbol in 0..64_u16 {
        if cell.has(symbol) {
            bits |= 1_u64 << symbol;
        }
    }
    bits
}

/// The symbols of the entry as bits.
fn bits_at(mat: &Mat<Bits<1>>, i: u32, j: u32) -> u64 {
    match entry(mat, i, j) {
        Some(cell) => bits_in(cell),
        None => 0,
    }
}

/// Whether the matrix is the part of the dense one from this row and this column on.
fn is_part(mat: &Mat<Bits<1>>, dense: &Dense, row: u32, column: u32) -> bool {
    for i in 0..mat.rows() {
        for j in 0..mat.cols() {
            if bits_at(mat, i, j) != dense.get(row.saturating_add(i), column.saturating_add(j)) {
                return false;
            }
        }
    }
    true
}

/// The union of two dense matrices of this size.
fn dense_union(alloc: Global, rows: u32, columns: u32, a: &Dense, b: &Dense) -> Option<Dense> {
    let mut both = Dense::zero(alloc, rows, columns).ok()?;
    for i in 0..rows {
        for j in 0..columns {
            both.add(i, j, a.get(i, j));
            both.add(i, j, b.get(i, j));
        }
    }
    Some(both)
}

/// Whether the parts of the matrix, cut at some row and column, are those of the dense one, and
/// their matrix is the whole again.
fn is_cut(alloc: Global, draw: &mut Draw, mat: &Mat<Bits<1>>, dense: &Dense) -> Option<bool> {
    let row = draw.below(mat.rows().saturating_add(1));
    let column = draw.below(mat.cols().saturating_add(1));
    let cut = cut_at(alloc, mat, row, column)?;
    if !is_part(&cut.a11, dense, 0, 0) {
        return Some(false);
    }
    if !is_part(&cut.a12, dense, 0, column) {
        return Some(false);
    }
    if !is_part(&cut.a21, dense, row, 0) {
        return Some(false);
    }
    if !is_part(&cut.a22, dense, row, column) {
        return Some(false);
    }
    let whole = gathered(alloc, &cut)?;
    Some(is_part(&whole, dense, 0, 0))
}

/// A cell with the symbols of the bits.
fn cell_of(alloc: Global, bits: u64) -> Option<Bits<1>> {
    let mut cell = Bits::empty();
    for symbol in 0..64_u16 {
        if bits >> symbol & 1 == 1 {
            cell.insert(alloc, symbol).ok()?;
        }
    }
    Some(cell)
}

/// The symbols of the product of two entries, as bits.
fn bits_of_product(alloc: Global, form: &Binary<Bits<1>>, one: u64, other: u64) -> Option<u64> {
    if one == 0 || other == 0 {
        return Some(0);
    }
    let left = cell_of(alloc, one)?;
    let right = cell_of(alloc, other)?;
    let cell: Bits<1> = form.product(alloc, &left, &right).ok()?;
    Some(bits_in(&cell))
}

/// Whether the product of the matrices, of which the first has so many columns, is that of the
/// dense ones, entry by entry.
fn is_product(
    alloc: Global,
    form: &Binary<Bits<1>>,
    a: &Twins,
    b: &Twins,
    middle: u32,
) -> Option<bool> {
    let product = multiplied(alloc, form, &a.sparse, &b.sparse)?;
    let mut dense = Dense::zero(alloc, product.rows(), product.cols()).ok()?;
    for i in 0..product.rows() {
        for j in 0..product.cols() {
            for k in 0..middle {
                let bits = bits_of_product(alloc, form, a.dense.get(i, k), b.dense.get(k, j))?;
                dense.add(i, j, bits);
            }
        }
    }
    Some(is_part(&product, &dense, 0, 0))
}

/// One round: two matrices of one size, their union, the product of one with a third, and the parts
/// of the union and their matrix. Some(false) is that an entry differs, and None that memory ran out
/// or sizes do not fit.
pub fn round(alloc: Global, form: &Binary<Bits<1>>, draw: &mut Draw) -> Option<bool> {
    let rows = draw.below(MOST + 1);
    let columns = draw.below(MOST + 1);
    let a = random(alloc, draw, rows, columns)?;
    let b = random(alloc, draw, rows, columns)?;
    let both = united(alloc, &a.sparse, &b.sparse)?;
    let dense = dense_union(alloc, rows, columns, &a.dense, &b.dense)?;
    if !is_part(&both, &dense, 0, 0) {
        return Some(false);
    }
    let width = draw.below(MOST + 1);
    let c = random(alloc, draw, columns, width)?;
    if !is_product(alloc, form, &a, &c, columns)? {
        return Some(false);
    }
    is_cut(alloc, draw, &both, &dense)
}
