//! Where a matrix is made: its cells and rows by number, and the unions of rows that were made.
ghost use Rattle.std.specs.Prelude.{◌≡◌, ◌<◌, ◌^◌, ℕ, [], length, map, Contains, IfOk, IfSome};
ghost use Rattle.std.specs.Prelude.{IsTrue};
ghost use Rattle.std.specs.Prelude.{◌↔◌};
ghost use Rattle.quad_mat.specs.declared.room.RowUnion.{RowUnion};
ghost use Rattle.quad_mat.specs.Rows.{IsRow};
ghost use Rattle.quad_mat.specs.Rooms.{IsRoom, IsRowUnion, IsSingleRow, RoomGrows};
ghost use Rattle.quad_mat.specs.Rows.{row_of, AreDifferent, StayDifferent};

use crate::cells::{LOOK_BACK, number_from, number_of};
use crate::entries::{Entry, Row, row_at};
use crate::merging::merged;
use cell_sets::Cell;
use sqlite_items::Items;
use std::alloc::{AllocError, Global};

/// The union of two rows, by their numbers.
#[derive(Clone, Copy)]
pub(crate) struct RowUnion {
    pub(crate) left: u32,
    pub(crate) right: u32,
    pub(crate) both: u32,
}

/// Cells and rows by number. Row 0 is empty.
#[derive(Drop)]
pub(crate) struct Room<C: Cell> {
    pub(crate) cells: Vec<C>,
    pub(crate) rows: Items<Row>,
    pub(crate) unions: Items<RowUnion>,
    pub(crate) columns: u32,
}

/// Whether two rows have the same entries.
fn are_equal(a: &[Entry], b: &[Entry]) -> bool
    ensures { IsTrue result ↔ (a.now ≡ b.now) }
{
    a == b
}

/// Where an equal row stands among the last ones.
fn place_of_row(rows: &[Row], row: &[Entry]) -> Option<usize>
    ensures { IfSome result (λ n. (n < length rows.now) × (row_of rows.now n ≡ row.now)) }
{
    let mut place = rows.len();
    let mut left = LOOK_BACK;
    while place > 0 && left > 0 {
        place -= 1;
        left -= 1;
        if are_equal(rows[place].as_slice(), row) {
            return Some(place);
        }
    }
    None
}

/// The union that is remembered of two rows, if it is one of the last.
fn known_union(unions: &[RowUnion], a: u32, b: u32) -> Option<u32>
    ensures { IfSome result (λ n. (m : RowUnion) × Contains unions.now m
        × (m.left ≡ a) × (m.right ≡ b) × (m.both ≡ n)) }
{
    let mut place = unions.len();
    let mut left = LOOK_BACK;
    while place > 0 && left > 0 {
        place -= 1;
        left -= 1;
        let known = unions[place];
        if known.left == a && known.right == b {
            return Some(known.both);
        }
    }
    None
}

/// A room for rows of so many columns, with the empty row alone.
pub(crate) fn empty_room<C: Cell>(alloc: Global, columns: u32) -> Result<Room<C>, AllocError>
    ensures columns { IfOk result (λ room. room.columns ≡ columns) }
    ensures room { IfOk result (λ room.
        IsRoom columns (map C.symbols room.cells.items) room.rows room.unions) }
    ensures different { IfOk result (λ room. AreDifferent (map C.symbols room.cells.items)) }
{
    let mut rows = Items::new(alloc);
    rows.push(Items::new(alloc))?;
    Ok(Room {
        cells: Vec::new(alloc),
        rows,
        unions: Items::new(alloc),
        columns,
    })
}

/// The number of this row. It is put behind the others, unless one of the last is equal.
pub(crate) fn number_of_row<C: Cell>(room: &mut Room<C>, row: Row) -> Result<u32, AllocError>
    requires room { IsRoom room.old.columns
        (map C.symbols room.old.cells.items) room.old.rows room.old.unions }
    requires row { IsRow (length (map C.symbols room.old.cells.items)) room.old.columns row }
    ensures columns { IfOk result (λ _. room.new.columns ≡ room.old.columns) }
    ensures cells { IfOk result (λ _. room.new.cells.items ≡ room.old.cells.items) }
    ensures grows { IfOk result (λ _. RoomGrows room.old.columns
        (map C.symbols room.old.cells.items) room.old.rows
        (map C.symbols room.new.cells.items) room.new.rows room.new.unions) }
    ensures row { IfOk result (λ n.
        (n < length room.new.rows) × (row_of room.new.rows n ≡ row)) }
{
    if let Some(place) = place_of_row(room.rows.as_slice(), row.as_slice()) {
        return number_of(place);
    }
    let number = number_of(room.rows.len())?;
    room.rows.push(row)?;
    Ok(number)
}

/// The number of the row with this cell at this column, and no other entry.
pub(crate) fn number_of_single<C: Cell>(
    room: &mut Room<C>,
    alloc: Global,
    column: u32,
    cell: C,
) -> Result<u32, AllocError>
    requires room { IsRoom room.old.columns
        (map C.symbols room.old.cells.items) room.old.rows room.old.unions }
    requires column { column < room.old.columns }
    requires some { C.symbols cell ≡ [] → ⊥ }
    ensures columns { IfOk result (λ _. room.new.columns ≡ room.old.columns) }
    ensures room { IfOk result (λ _. IsRoom room.new.columns
        (map C.symbols room.new.cells.items) room.new.rows room.new.unions) }
    ensures row { IfOk result (λ n. IsSingleRow (map C.symbols room.new.cells.items) room.new.rows
        column (C.symbols cell) n) }
    ensures different { IfOk result (λ _. StayDifferent
        (map C.symbols room.old.cells.items) (map C.symbols room.new.cells.items)) }
{
    let number = number_from(&mut room.cells, cell, 0)?;
    let mut row = Items::new(alloc);
    row.push(Entry {
        column,
        cell: number,
    })?;
    let n = number_of_row(room, row)?;
    Ok(n)
}

/// The number of the union of two rows, which is made and remembered.
fn made_union<C: Cell>(alloc: Global, room: &mut Room<C>, a: u32, b: u32) -> Result<u32, AllocError>
    requires room { IsRoom room.old.columns
        (map C.symbols room.old.cells.items) room.old.rows room.old.unions }
    requires left { a < length room.old.rows }
    requires right { b < length room.old.rows }
    ensures columns { IfOk result (λ _. room.new.columns ≡ room.old.columns) }
    ensures grows { IfOk result (λ _. RoomGrows room.old.columns
        (map C.symbols room.old.cells.items) room.old.rows
        (map C.symbols room.new.cells.items) room.new.rows room.new.unions) }
    ensures union { IfOk result (λ n. IsRowUnion
        (map C.symbols room.new.cells.items) room.new.rows a b n) }
{
    let rows = room.rows.as_slice();
    let left = row_at(rows, a);
    let right = row_at(rows, b);
    let row = merged(alloc, &mut room.cells, left, right, room.columns)?;
    let both = number_of_row(room, row)?;
    let _ = room.unions.push(RowUnion {
        left: a,
        right: b,
        both,
    });
    Ok(both)
}

/// The number of the union of two rows. A union with the empty row is the
/// other one, and one that is not remembered is made.
pub(crate) fn number_of_union<C: Cell>(
    alloc: Global,
    room: &mut Room<C>,
    a: u32,
    b: u32,
) -> Result<u32, AllocError>
    requires room { IsRoom room.old.columns
        (map C.symbols room.old.cells.items) room.old.rows room.old.unions }
    requires left { a < length room.old.rows }
    requires right { b < length room.old.rows }
    ensures columns { IfOk result (λ _. room.new.columns ≡ room.old.columns) }
    ensures grows { IfOk result (λ _. RoomGrows room.old.columns
        (map C.symbols room.old.cells.items) room.old.rows
        (map C.symbols room.new.cells.items) room.new.rows room.new.unions) }
    ensures union { IfOk result (λ n. IsRowUnion
        (map C.symbols room.new.cells.items) room.new.rows a b n) }
{
    if a == b {
        return Ok(a);
    }
    if b == 0 {
        return Ok(a);
    }
    if a == 0 {
        return Ok(b);
    }
    if let Some(both) = known_union(room.unions.as_slice(), a, b) {
        return Ok(both);
    }
    made_union(alloc, room, a, b)
}
