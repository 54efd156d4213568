//! Sparse matrices of cells. Equal rows are kept once, and so are equal cells.
ghost use Rattle.std.specs.Prelude.{◌≡◌, ◌<◌, ◌≤◌, ◌+◌, ◌^◌, ℕ, [], length, map, IfOk, IfSome};
ghost use Rattle.std.specs.Prelude.{slice_index};
ghost use Rattle.std.specs.Prelude.{MatchOption};
ghost use Rattle.cell_sets.specs.Grids.{entry};
ghost use Rattle.quad_mat.specs.Matrices.{HasSize, IsCut, IsMatProduct, IsPart};
ghost use Rattle.quad_mat.specs.Matrices.{IsSingle, IsUnionOf};
ghost use Rattle.quad_mat.specs.Rows.{found};
ghost use Rattle.quad_mat.specs.Rooms.{IsRoom, RoomGrows};
ghost use Rattle.quad_mat.specs.Rows.{row_of, AreDifferent, StayDifferent};
ghost use Rattle.quad_mat.specs.Loading.{AreBelow, AreNumbersOf, BothHave, IsBody, IsMatOf};
ghost use Rattle.quad_mat.specs.Loading.{IsSource, PartHas};
ghost use Rattle.quad_mat.specs.Products.{HasNothing, IsProductMat, Keeps};

use crate::entries::{Entry, cell_at, row_at};
use crate::images::{Factors, empty_making};
use crate::loading::{Body, Window, empty_rows, loaded_rows, renumbered};
use crate::pairs::{paired_rows, side_by_side};
use crate::products::product_rows;
use crate::room::{Room, empty_room, number_of_single};
use binary_form::Binary;
use cell_sets::Cell;
use sqlite_items::Items;
use std::alloc::{AllocError, Global};
use std::marker::Model;
use std::sync::Arc;

/// A matrix of cells of which most are empty. Owners of equal matrices share what is kept.
#[derive(Drop)]
pub struct Mat<C: Cell> {
    rows: u32,
    columns: u32,
    body: Option<Arc<Body<C>>>,
}

impl<C: Cell> Model for Mat<C> {
    ghost use Rattle.cell_sets.specs.Grids.{Grid, grid_of};
    ghost use Rattle.quad_mat.specs.Views.{found_in, IsKept};

    ghost Value = { Grid };

    ghost view = { λ m. grid_of m.rows m.columns (found_in C.symbols m.body) };

    ghost invariant = { λ m. IsKept C.symbols m.rows m.columns m.body };
}

impl<C: Cell> Mat<C> {
    /// The matrix whose entries are all empty. It takes no memory.
    pub fn zero(rows: u32, columns: u32) -> Mat<C>
        ensures size { HasSize rows columns result }
        ensures each { (i j : ℕ) → i < rows → j < columns → entry result i j ≡ [] }
    {
        Mat {
            rows,
            columns,
            body: None,
        }
    }

    /// The matrix with this cell in row i and column j, and no other entry. An empty cell is none
    /// either.
    pub fn at(
        alloc: Global,
        rows: u32,
        columns: u32,
        i: u32,
        j: u32,
        cell: C,
    ) -> Result<Mat<C>, AllocError>
        requires row { i < rows }
        requires column { j < columns }
        ensures { IfOk result (λ mat. IsSingle rows columns i j (C.symbols cell) mat) }
    {
        if cell.is_empty() {
            return Ok(Mat::zero(rows, columns));
        }
        let mut room = empty_room(alloc, columns)?;
        let number = number_of_single(&mut room, alloc, j, cell)?;
        let mut numbers: Items<u32> = empty_rows(alloc, rows as usize)?;
        numbers.set(i as usize, number);
        let mat: Mat<C> = Mat::packed(alloc, room, numbers, rows)?;
        Ok(mat)
    }

    /// How many rows there are. It takes no memory.
    pub fn rows(&self) -> u32
        ensures { result ≡ self.now.rows }
    {
        self.rows
    }

    /// How many columns there are. It takes no memory.
    pub fn cols(&self) -> u32
        ensures { result ≡ self.now.columns }
    {
        self.columns
    }

    /// The cell in row i and column j, counted from 0; None exactly where it is empty. It searches
    /// the row by halves, and takes no memory.
    pub fn get(&self, i: u32, j: u32) -> Option<&C>
        requires row { i < self.now.rows }
        requires column { j < self.now.columns }
        ensures cell { MatchOption result
            (entry self.now i j ≡ [])
            (λ cell. C.symbols cell.now ≡ entry self.now i j) }
        ensures some { IfSome result (λ cell. C.symbols cell.now ≡ [] → ⊥) }
    {
        match &self.body {
            Some(body) => cell_in(body, i, j),
            None => None,
        }
    }

    /// An equal matrix. Nothing is copied. An error is that there are 2^63 owners.
    pub fn share(&self, _alloc: Global) -> Result<Mat<C>, AllocError>
        ensures { IfOk result (λ mat. mat ≡ self.now) }
    {
        let body = match &self.body {
            Some(body) => Some(Arc::try_clone(body)?),
            None => None,
        };
        Ok(Mat {
            rows: self.rows,
            columns: self.columns,
            body,
        })
    }

    /// What the matrix keeps, None where it keeps nothing.
    fn body(&self) -> Option<&Body<C>>
        ensures { MatchOption result
            (HasNothing self.now)
            (λ body. Keeps C.symbols body.now self.now) }
    {
        match &self.body {
            Some(body) => Some(body),
            None => None,
        }
    }

    /// The numbers in the room of what the window has of so many rows, from the first on.
    fn loaded(
        &self,
        alloc: Global,
        room: &mut Room<C>,
        window: Window,
        first: u32,
        count: u32,
    ) -> Result<Items<u32>, AllocError>
        requires rows { first + count ≤ self.now.rows }
        requires columns { window.first + window.width ≤ self.now.columns }
        requires fits { window.to + window.width ≤ room.old.columns }
        requires room { IsRoom room.old.columns
            (map C.symbols room.old.cells.items) room.old.rows room.old.unions }
        ensures columns { IfOk result (λ _. room.new.columns ≡ room.old.columns) }
        ensures grows { IfOk result (λ _. RoomGrows room.old.columns
            (map C.symbols room.old.cells.items) room.old.rows
            (map C.symbols room.new.cells.items) room.new.rows room.new.unions) }
        ensures different { IfOk result (λ _. StayDifferent
            (map C.symbols room.old.cells.items) (map C.symbols room.new.cells.items)) }
        ensures count { IfOk result (λ numbers. length numbers ≡ count) }
        ensures rows { IfOk result (λ numbers. AreNumbersOf
            (λ i column s. PartHas window self.now (first + i) column s)
            (map C.symbols room.new.cells.items) room.new.rows numbers) }
    {
        match &self.body {
            Some(body) => {
                let numbers: Items<u32> = loaded_rows(alloc, body, room, window, first, count)?;
                Ok(numbers)
            }
            None => {
                let numbers: Items<u32> = empty_rows(alloc, count as usize)?;
                Ok(numbers)
            }
        }
    }

    /// The rows of these numbers as a matrix. No two of the room's cells have the same symbols.
    fn packed(
        alloc: Global,
        room: Room<C>,
        numbers: Items<u32>,
        rows_count: u32,
    ) -> Result<Mat<C>, AllocError>
        requires count { length numbers ≡ rows_count }
        requires room { IsRoom room.columns (map C.symbols room.cells.items) room.rows room.unions }
        requires different { AreDifferent (map C.symbols room.cells.items) }
        requires numbers { AreBelow (length room.rows) numbers }
        ensures { IfOk result (λ mat. IsMatOf
            room.columns (map C.symbols room.cells.items) room.rows numbers mat) }
    {
        let Room {
            cells,
            rows,
            unions: _,
            columns,
        } = room;
        if rows.len() == 1 {
            return Ok(Mat::zero(rows_count, columns));
        }
        let body = Arc::new(
            alloc,
            Body {
                cells,
                rows,
                numbers,
            },
        )?;
        Ok(Mat {
            rows: rows_count,
            columns,
            body: Some(body),
        })
    }
}

/// Row i of what a matrix keeps.
fn row_in<C: Cell>(body: &Body<C>, i: u32) -> &[Entry]
    requires numbers { AreBelow (length body.now.rows) body.now.numbers }
    requires row { i < length body.now.numbers }
    ensures { result.now ≡ row_of body.now.rows (slice_index body.now.numbers i) }
{
    let n = body.numbers.as_slice()[i as usize];
    row_at(body.rows.as_slice(), n)
}

/// The cell in row i and column j of what a matrix keeps.
fn cell_in<C: Cell>(body: &Body<C>, i: u32, j: u32) -> Option<&C>
    requires source { IsSource (map C.symbols body.now.cells.items) body.now.rows }
    requires numbers { AreBelow (length body.now.rows) body.now.numbers }
    requires row { i < length body.now.numbers }
    ensures cell { MatchOption result
        (found (map C.symbols body.now.cells.items)
        (row_of body.now.rows (slice_index body.now.numbers i)) j ≡ [])
        (λ cell. C.symbols cell.now ≡ found (map C.symbols body.now.cells.items)
        (row_of body.now.rows (slice_index body.now.numbers i)) j) }
    ensures some { IfSome result (λ cell. C.symbols cell.now ≡ [] → ⊥) }
{
    let cells = body.cells.as_slice();
    let row = row_in(body, i);
    cell_at(cells, row, j)
}

/// The rows of these numbers as a matrix, with those cells and rows of the room alone that are
/// used, each different cell once.
fn finished<C: Cell>(
    alloc: Global,
    room: Room<C>,
    numbers: Items<u32>,
    rows_count: u32,
) -> Result<Mat<C>, AllocError>
    requires count { length numbers ≡ rows_count }
    requires room { IsRoom room.columns (map C.symbols room.cells.items) room.rows room.unions }
    requires numbers { AreBelow (length room.rows) numbers }
    ensures { IfOk result (λ mat. IsMatOf
        room.columns (map C.symbols room.cells.items) room.rows numbers mat) }
{
    let Room {
        cells,
        rows,
        unions: _,
        columns,
    } = room;
    let body = Body {
        cells,
        rows,
        numbers: Items::new(alloc),
    };
    let mut used = empty_room(alloc, columns)?;
    let whole = Window {
        first: 0,
        width: columns,
        to: 0,
    };
    let numbers: Items<u32> = renumbered(alloc, &body, &mut used, whole, numbers)?;
    let mat: Mat<C> = Mat::packed(alloc, used, numbers, rows_count)?;
    Ok(mat)
}

/// For each row the number in the room of the union of two matrices' rows, of which the second
/// stands from this column on.
fn both_loaded<C: Cell>(
    alloc: Global,
    room: &mut Room<C>,
    left: &Mat<C>,
    right: &Mat<C>,
    to: u32,
) -> Result<Items<u32>, AllocError>
    requires rows { left.now.rows ≡ right.now.rows }
    requires left { left.now.columns ≤ room.old.columns }
    requires right { to + right.now.columns ≤ room.old.columns }
    requires room { IsRoom room.old.columns
        (map C.symbols room.old.cells.items) room.old.rows room.old.unions }
    ensures columns { IfOk result (λ _. room.new.columns ≡ room.old.columns) }
    ensures grows { IfOk result (λ _. RoomGrows room.old.columns
        (map C.symbols room.old.cells.items) room.old.rows
        (map C.symbols room.new.cells.items) room.new.rows room.new.unions) }
    ensures count { IfOk result (λ numbers. length numbers ≡ left.now.rows) }
    ensures rows { IfOk result (λ numbers. AreNumbersOf (BothHave left.now right.now to)
        (map C.symbols room.new.cells.items) room.new.rows numbers) }
{
    let windows = side_by_side(left.cols(), right.cols(), to);
    let one = match left.body() {
        Some(one) => one,
        None => return right.loaded(alloc, room, windows.right, 0, right.rows()),
    };
    let other = match right.body() {
        Some(other) => other,
        None => return left.loaded(alloc, room, windows.left, 0, left.rows()),
    };
    let numbers: Items<u32> = paired_rows(alloc, one, other, windows, room)?;
    Ok(numbers)
}

/// The union of two matrices of one size, entry by entry.
pub fn union<C: Cell>(alloc: Global, a: &Mat<C>, b: &Mat<C>) -> Result<Mat<C>, AllocError>
    requires rows { a.now.rows ≡ b.now.rows }
    requires columns { a.now.columns ≡ b.now.columns }
    ensures { IfOk result (λ both. IsUnionOf a.now b.now both) }
{
    let mut room = empty_room(alloc, a.cols())?;
    let numbers: Items<u32> = both_loaded(alloc, &mut room, a, b, 0)?;
    let both: Mat<C> = finished(alloc, room, numbers, a.rows())?;
    Ok(both)
}

/// The rows that a product of matrices has, as a matrix.
fn product_of<C: Cell>(
    alloc: Global,
    factors: &Factors<C>,
    rows: u32,
    columns: u32,
) -> Result<Mat<C>, AllocError>
    requires rows { rows ≡ length factors.now.left.now.numbers }
    requires left { IsBody (length factors.now.right.now.numbers)
        (map C.symbols factors.now.left.now.cells.items)
        factors.now.left.now.rows factors.now.left.now.numbers }
    requires right { IsBody columns (map C.symbols factors.now.right.now.cells.items)
        factors.now.right.now.rows factors.now.right.now.numbers }
    ensures { IfOk result (λ mat. IsProductMat C.symbols
        factors.now.bin.now factors.now.left.now factors.now.right.now columns mat) }
{
    let mut making = empty_making(alloc, columns)?;
    let numbers: Items<u32> = product_rows(alloc, factors, &mut making)?;
    let mat: Mat<C> = finished(alloc, making.room, numbers, rows)?;
    Ok(mat)
}

/// The product of two matrices: the entry in row i and column j is the union, over all k, of the
/// products of the entry in row i and column k of the first and that in row k and column j of the
/// second. Each different row of the first is multiplied once, and the product of a cell and a row
/// is made once where it comes again soon.
pub fn product<C: Cell>(
    alloc: Global,
    bin: &Binary<C>,
    a: &Mat<C>,
    b: &Mat<C>,
) -> Result<Mat<C>, AllocError>
    requires middle { a.now.columns ≡ b.now.rows }
    ensures { IfOk result (λ product. IsMatProduct bin.now a.now b.now product) }
{
    let left = match a.body() {
        Some(left) => left,
        None => return Ok(Mat::zero(a.rows(), b.cols())),
    };
    let right = match b.body() {
        Some(right) => right,
        None => return Ok(Mat::zero(a.rows(), b.cols())),
    };
    let factors = Factors { bin, left, right };
    let product: Mat<C> = product_of(alloc, &factors, a.rows(), b.cols())?;
    Ok(product)
}

/// The part of so many rows and columns, from this row and this column on.
fn part<C: Cell>(
    alloc: Global,
    mat: &Mat<C>,
    row: u32,
    rows: u32,
    column: u32,
    columns: u32,
) -> Result<Mat<C>, AllocError>
    requires rows { row + rows ≤ mat.now.rows }
    requires columns { column + columns ≤ mat.now.columns }
    ensures size { IfOk result (λ part. HasSize rows columns part) }
    ensures part { IfOk result (λ part. IsPart part mat.now row column) }
{
    let mut room = empty_room(alloc, columns)?;
    let window = Window {
        first: column,
        width: columns,
        to: 0,
    };
    let numbers: Items<u32> = mat.loaded(alloc, &mut room, window, row, rows)?;
    let part: Mat<C> = Mat::packed(alloc, room, numbers, rows)?;
    Ok(part)
}

/// A matrix cut before a row and before a column: the upper parts, then the lower ones.
#[derive(Drop)]
pub struct Cut<C: Cell> {
    pub a11: Mat<C>,
    pub a12: Mat<C>,
    pub a21: Mat<C>,
    pub a22: Mat<C>,
}

impl<C: Cell> Mat<C> {
    /// The four parts of the matrix, cut before this row and before this column. A part may have no
    /// rows or no columns.
    pub fn cut(&self, alloc: Global, row: u32, column: u32) -> Result<Cut<C>, AllocError>
        requires row { row ≤ self.now.rows }
        requires column { column ≤ self.now.columns }
        ensures { IfOk result (λ cut.
            IsCut self.now row column cut.a11 cut.a12 cut.a21 cut.a22) }
    {
        let below = self.rows() - row;
        let behind = self.cols() - column;
        let a11: Mat<C> = part(alloc, self, 0, row, 0, column)?;
        let a12: Mat<C> = part(alloc, self, 0, row, column, behind)?;
        let a21: Mat<C> = part(alloc, self, row, below, 0, column)?;
        let a22: Mat<C> = part(alloc, self, row, below, column, behind)?;
        Ok(Cut { a11, a12, a21, a22 })
    }
}

/// The matrix of these four parts.
pub fn gather<C: Cell>(alloc: Global, cut: &Cut<C>) -> Result<Mat<C>, AllocError>
    requires upper { cut.now.a11.rows ≡ cut.now.a12.rows }
    requires lower { cut.now.a21.rows ≡ cut.now.a22.rows }
    requires left { cut.now.a11.columns ≡ cut.now.a21.columns }
    requires right { cut.now.a12.columns ≡ cut.now.a22.columns }
    requires rows { cut.now.a11.rows + cut.now.a21.rows < 2 ^ 32 }
    requires columns { cut.now.a11.columns + cut.now.a12.columns < 2 ^ 32 }
    ensures { IfOk result (λ whole. IsCut whole cut.now.a11.rows cut.now.a11.columns
        cut.now.a11 cut.now.a12 cut.now.a21 cut.now.a22) }
{
    let column = cut.a11.cols();
    let mut room = empty_room(alloc, column + cut.a12.cols())?;
    let mut numbers: Items<u32> = both_loaded(alloc, &mut room, &cut.a11, &cut.a12, column)?;
    let lower: Items<u32> = both_loaded(alloc, &mut room, &cut.a21, &cut.a22, column)?;
    numbers.append(lower)?;
    let rows = cut.a11.rows() + cut.a21.rows();
    let whole: Mat<C> = finished(alloc, room, numbers, rows)?;
    Ok(whole)
}
