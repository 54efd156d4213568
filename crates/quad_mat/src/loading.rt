//! Bringing rows of a matrix into a room, each different one once.
ghost use Rattle.std.specs.Prelude.{◌≡◌, ◌<◌, ◌≤◌, ◌+◌, ◌^◌, ℕ, [], length, map, IfOk, MatchOption};
ghost use Rattle.std.specs.Prelude.{OnOk};
ghost use Rattle.std.specs.Prelude.{slice_get, slice_index, Some};
ghost use Rattle.quad_mat.specs.Rows.{AreCellsBelow, AreFull, HasRisingColumns};
ghost use Rattle.quad_mat.specs.Rooms.{IsRoom, RoomGrows};
ghost use Rattle.quad_mat.specs.Rows.{row_of, StayDifferent};
ghost use Rattle.quad_mat.specs.Loading.{AreBelow, AreCopied, AreNumbersOf, CopiesCell};
ghost use Rattle.quad_mat.specs.Loading.{IsKnown, IsMovedRow, IsMovedTo, IsMovedUpTo, IsSource};
ghost use Rattle.quad_mat.specs.Loading.{MovedNumberHas, PushesMoved};

use crate::cells::number_from;
use crate::entries::{Entry, Row, row_at};
use crate::room::{Room, number_of_row};
use cell_sets::Cell;
use sqlite_items::Items;
use std::alloc::{AllocError, Global};

/// Which columns are taken, so many from the first on, and the column that the first moves to.
#[derive(Clone, Copy)]
pub(crate) struct Window {
    pub(crate) first: u32,
    pub(crate) width: u32,
    pub(crate) to: u32,
}

/// What a matrix keeps: each different cell and row once, and for each row of the matrix the number
/// of its row.
#[derive(Drop)]
pub(crate) struct Body<C: Cell> {
    pub(crate) cells: Vec<C>,
    pub(crate) rows: Items<Row>,
    pub(crate) numbers: Items<u32>,
}

/// The numbers in the room of those cells and rows of a matrix that were brought there.
#[derive(Drop)]
pub(crate) struct Known {
    pub(crate) cells: Items<Option<u32>>,
    pub(crate) rows: Items<Option<u32>>,
}

/// Where the window moves the column, None where it does not have it.
fn column_in(window: Window, column: u32) -> Option<u32>
    requires { window.to + window.width < 2 ^ 32 }
    ensures { MatchOption result
        ((to : ℕ) → IsMovedTo window column to → ⊥)
        (λ to. IsMovedTo window column to) }
{
    if column < window.first {
        return None;
    }
    let inside = column - window.first;
    if inside < window.width {
        Some(window.to + inside)
    } else {
        None
    }
}

/// So many numbers, none of which is known.
pub(crate) fn unknown(alloc: Global, count: usize) -> Result<Items<Option<u32>>, AllocError>
    ensures count { IfOk result (λ known. length known ≡ count) }
    ensures none { IfOk result (λ known. (n m : ℕ) → slice_get known n ≡ Some (Some m) → ⊥) }
{
    let mut known = Items::new(alloc);
    for _ in 0..count {
        known.push(None)?;
    }
    Ok(known)
}

/// That nothing is known of a matrix's cells and rows.
pub(crate) fn unknown_in<C: Cell>(alloc: Global, body: &Body<C>) -> Result<Known, AllocError>
    ensures cells { IfOk result (λ known. length known.cells ≡ length body.now.cells.items) }
    ensures no_cell { IfOk result (λ known.
        (n m : ℕ) → slice_get known.cells n ≡ Some (Some m) → ⊥) }
    ensures rows { IfOk result (λ known. length known.rows ≡ length body.now.rows) }
    ensures no_row { IfOk result (λ known.
        (n m : ℕ) → slice_get known.rows n ≡ Some (Some m) → ⊥) }
{
    let cells = unknown(alloc, body.cells.len())?;
    let rows = unknown(alloc, body.rows.len())?;
    Ok(Known { cells, rows })
}

/// What is known of a number, None where nothing is.
pub(crate) fn known_at(known: &Items<Option<u32>>, n: u32) -> Option<u32>
    requires { n < length known.now }
    ensures { slice_get known.now n ≡ Some result }
{
    known.as_slice()[n as usize]
}

/// The number of a cell of the source among the others. One that is not known is copied, unless a
/// cell with the same symbols is there.
fn copied_cell<C: Cell>(
    alloc: Global,
    source: &[C],
    known: &mut Items<Option<u32>>,
    cells: &mut Vec<C>,
    n: u32,
) -> Result<u32, AllocError>
    requires source { AreFull (map C.symbols source.now) }
    requires within { n < length source.now }
    requires full { AreFull (map C.symbols cells.old.items) }
    requires copied { AreCopied
        (map C.symbols source.now) (map C.symbols cells.old.items) known.old }
    ensures { IfOk result (λ m. CopiesCell (map C.symbols source.now)
        (map C.symbols cells.old.items) (map C.symbols cells.new.items) known.new n m) }
{
    if let Some(number) = known_at(known, n) {
        return Ok(number);
    }
    let copy: C = C::empty().union(alloc, &source[n as usize])?;
    let number = number_from(cells, copy, 0)?;
    known.set(n as usize, Some(number));
    Ok(number)
}

/// Moves an entry over the source's cells to a row over the others, if the window has it.
fn push_moved<C: Cell>(
    alloc: Global,
    source: &[C],
    known: &mut Items<Option<u32>>,
    cells: &mut Vec<C>,
    entry: Entry,
    window: Window,
    made: &mut Row,
) -> Result<(), AllocError>
    requires source { AreFull (map C.symbols source.now) }
    requires within { entry.cell < length source.now }
    requires fits { window.to + window.width < 2 ^ 32 }
    requires full { AreFull (map C.symbols cells.old.items) }
    requires copied { AreCopied
        (map C.symbols source.now) (map C.symbols cells.old.items) known.old }
    ensures { OnOk result (PushesMoved window (map C.symbols source.now)
        (map C.symbols cells.old.items) (map C.symbols cells.new.items) known.old known.new
        entry made.old made.new) }
{
    match column_in(window, entry.column) {
        Some(column) => {
            let cell = copied_cell(alloc, source, known, cells, entry.cell)?;
            made.push(Entry { column, cell })?;
            Ok(())
        }
        None => Ok(()),
    }
}

/// How many entries of a row the window has.
fn count_in(row: &[Entry], window: Window) -> usize {
    row.iter()
        .filter(|entry| entry.column.wrapping_sub(window.first) < window.width)
        .count()
}

/// A row without entries, with room for so many.
fn row_for(alloc: Global, count: usize) -> Result<Row, AllocError>
    ensures { IfOk result (λ row. row ≡ []) }
{
    let entries = Vec::with_capacity(alloc, count)?;
    Ok(Items::from_vec(entries))
}

/// What the window has of a row over the source's cells, as a row over the others.
fn moved_row<C: Cell>(
    alloc: Global,
    source: &[C],
    known: &mut Items<Option<u32>>,
    cells: &mut Vec<C>,
    row: &[Entry],
    window: Window,
    columns: u32,
) -> Result<Row, AllocError>
    requires source { AreFull (map C.symbols source.now) }
    requires rising { HasRisingColumns row.now }
    requires cells { AreCellsBelow (length (map C.symbols source.now)) row.now }
    requires fits { window.to + window.width ≤ columns }
    requires full { AreFull (map C.symbols cells.old.items) }
    requires copied { AreCopied
        (map C.symbols source.now) (map C.symbols cells.old.items) known.old }
    ensures { IfOk result (λ made. IsMovedUpTo window columns (map C.symbols source.now)
        (map C.symbols cells.old.items) (map C.symbols cells.new.items) known.new
        row.now (length row.now) made) }
{
    let mut made = row_for(alloc, count_in(row, window))?;
    for entry in row {
        push_moved(alloc, source, known, cells, *entry, window, &mut made)?;
    }
    Ok(made)
}

/// Brings what the window has of row n of a matrix into the room: its number there. It stands apart
/// from the look-up, so that this is compiled into the loops.
#[inline(never)]
fn brought_row<C: Cell>(
    alloc: Global,
    body: &Body<C>,
    known: &mut Known,
    room: &mut Room<C>,
    window: Window,
    n: u32,
) -> Result<u32, AllocError>
    requires body { IsSource (map C.symbols body.now.cells.items) body.now.rows }
    requires within { n < length body.now.rows }
    requires fits { window.to + window.width ≤ room.old.columns }
    requires room { IsRoom room.old.columns
        (map C.symbols room.old.cells.items) room.old.rows room.old.unions }
    requires known { IsKnown window (map C.symbols body.now.cells.items) body.now.rows
        (map C.symbols room.old.cells.items) room.old.rows known.old.cells known.old.rows }
    ensures columns { IfOk result (λ _. room.new.columns ≡ room.old.columns) }
    ensures grows { IfOk result (λ _. RoomGrows room.old.columns
        (map C.symbols room.old.cells.items) room.old.rows
        (map C.symbols room.new.cells.items) room.new.rows room.new.unions) }
    ensures different { IfOk result (λ _. StayDifferent
        (map C.symbols room.old.cells.items) (map C.symbols room.new.cells.items)) }
    ensures known { IfOk result (λ _.
        IsKnown window (map C.symbols body.now.cells.items) body.now.rows
        (map C.symbols room.new.cells.items) room.new.rows known.new.cells known.new.rows) }
    ensures row { IfOk result (λ m. IsMovedRow window (map C.symbols body.now.cells.items)
        (row_of body.now.rows n) (map C.symbols room.new.cells.items) room.new.rows m) }
{
    let source = body.cells.as_slice();
    let rows = body.rows.as_slice();
    let row = row_at(rows, n);
    let columns = room.columns;
    let cells = &mut room.cells;
    let made = moved_row(alloc, source, &mut known.cells, cells, row, window, columns)?;
    let number = number_of_row(room, made)?;
    known.rows.set(n as usize, Some(number));
    Ok(number)
}

/// The number in the room of what the window has of row n of a matrix. A row that is not known is
/// brought there.
pub(crate) fn loaded_row<C: Cell>(
    alloc: Global,
    body: &Body<C>,
    known: &mut Known,
    room: &mut Room<C>,
    window: Window,
    n: u32,
) -> Result<u32, AllocError>
    requires body { IsSource (map C.symbols body.now.cells.items) body.now.rows }
    requires within { n < length body.now.rows }
    requires fits { window.to + window.width ≤ room.old.columns }
    requires room { IsRoom room.old.columns
        (map C.symbols room.old.cells.items) room.old.rows room.old.unions }
    requires known { IsKnown window (map C.symbols body.now.cells.items) body.now.rows
        (map C.symbols room.old.cells.items) room.old.rows known.old.cells known.old.rows }
    ensures columns { IfOk result (λ _. room.new.columns ≡ room.old.columns) }
    ensures grows { IfOk result (λ _. RoomGrows room.old.columns
        (map C.symbols room.old.cells.items) room.old.rows
        (map C.symbols room.new.cells.items) room.new.rows room.new.unions) }
    ensures different { IfOk result (λ _. StayDifferent
        (map C.symbols room.old.cells.items) (map C.symbols room.new.cells.items)) }
    ensures known { IfOk result (λ _.
        IsKnown window (map C.symbols body.now.cells.items) body.now.rows
        (map C.symbols room.new.cells.items) room.new.rows known.new.cells known.new.rows) }
    ensures row { IfOk result (λ m. IsMovedRow window (map C.symbols body.now.cells.items)
        (row_of body.now.rows n) (map C.symbols room.new.cells.items) room.new.rows m) }
{
    if let Some(number) = known_at(&known.rows, n) {
        return Ok(number);
    }
    let number = brought_row(alloc, body, known, room, window, n)?;
    Ok(number)
}

/// No numbers, with room for so many.
pub(crate) fn numbers_for(alloc: Global, count: usize) -> Result<Items<u32>, AllocError>
    ensures { IfOk result (λ numbers. numbers ≡ []) }
{
    let numbers = Vec::with_capacity(alloc, count)?;
    Ok(Items::from_vec(numbers))
}

/// The numbers in the room of what the window has of so many rows of a matrix, from the first on.
pub(crate) fn loaded_rows<C: Cell>(
    alloc: Global,
    body: &Body<C>,
    room: &mut Room<C>,
    window: Window,
    first: u32,
    count: u32,
) -> Result<Items<u32>, AllocError>
    requires body { IsSource (map C.symbols body.now.cells.items) body.now.rows }
    requires numbers { AreBelow (length body.now.rows) body.now.numbers }
    requires within { first + count ≤ length body.now.numbers }
    requires fits { window.to + window.width ≤ room.old.columns }
    requires room { IsRoom room.old.columns
        (map C.symbols room.old.cells.items) room.old.rows room.old.unions }
    ensures columns { IfOk result (λ _. room.new.columns ≡ room.old.columns) }
    ensures grows { IfOk result (λ _. RoomGrows room.old.columns
        (map C.symbols room.old.cells.items) room.old.rows
        (map C.symbols room.new.cells.items) room.new.rows room.new.unions) }
    ensures different { IfOk result (λ _. StayDifferent
        (map C.symbols room.old.cells.items) (map C.symbols room.new.cells.items)) }
    ensures count { IfOk result (λ numbers. length numbers ≡ count) }
    ensures rows { IfOk result (λ numbers. AreNumbersOf
        (MovedNumberHas window (map C.symbols body.now.cells.items) body.now.rows
        body.now.numbers first)
        (map C.symbols room.new.cells.items) room.new.rows numbers) }
{
    let cells = unknown(alloc, body.cells.len())?;
    let rows = unknown(alloc, body.rows.len())?;
    let mut known = Known { cells, rows };
    let mut numbers = numbers_for(alloc, count as usize)?;
    let named = body.numbers.as_slice();
    for i in 0..count as usize {
        let n = named[first as usize + i];
        let m = loaded_row(alloc, body, &mut known, room, window, n)?;
        numbers.push(m)?;
    }
    Ok(numbers)
}

/// The numbers, each in the place of that of a row of the matrix, of what the window has of it.
pub(crate) fn renumbered<C: Cell>(
    alloc: Global,
    body: &Body<C>,
    room: &mut Room<C>,
    window: Window,
    named: Items<u32>,
) -> Result<Items<u32>, AllocError>
    requires body { IsSource (map C.symbols body.now.cells.items) body.now.rows }
    requires numbers { AreBelow (length body.now.rows) named }
    requires fits { window.to + window.width ≤ room.old.columns }
    requires room { IsRoom room.old.columns
        (map C.symbols room.old.cells.items) room.old.rows room.old.unions }
    ensures columns { IfOk result (λ _. room.new.columns ≡ room.old.columns) }
    ensures grows { IfOk result (λ _. RoomGrows room.old.columns
        (map C.symbols room.old.cells.items) room.old.rows
        (map C.symbols room.new.cells.items) room.new.rows room.new.unions) }
    ensures different { IfOk result (λ _. StayDifferent
        (map C.symbols room.old.cells.items) (map C.symbols room.new.cells.items)) }
    ensures count { IfOk result (λ numbers. length numbers ≡ length named) }
    ensures rows { IfOk result (λ numbers. AreNumbersOf
        (MovedNumberHas window (map C.symbols body.now.cells.items) body.now.rows named 0)
        (map C.symbols room.new.cells.items) room.new.rows numbers) }
{
    let mut known = unknown_in(alloc, body)?;
    let mut numbers = named;
    for i in 0..numbers.len() {
        let n = numbers.as_slice()[i];
        let m = loaded_row(alloc, body, &mut known, room, window, n)?;
        numbers.set(i, m);
    }
    Ok(numbers)
}

/// So many times the number of the empty row.
pub(crate) fn empty_rows(alloc: Global, count: usize) -> Result<Items<u32>, AllocError>
    ensures count { IfOk result (λ numbers. length numbers ≡ count) }
    ensures zero { IfOk result (λ numbers.
        (i : ℕ) → i < length numbers → slice_index numbers i ≡ 0) }
{
    let mut numbers = Items::new(alloc);
    for _ in 0..count {
        numbers.push(0)?;
    }
    Ok(numbers)
}
