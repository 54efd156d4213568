//! The unions of the rows of two matrices, brought into a room together: where the rows of both are
//! those of the place before, so is their union.
ghost use Rattle.std.specs.Prelude.{◌≡◌, ◌<◌, ℕ, length, map, IfOk, IfSome, Some};
ghost use Rattle.quad_mat.specs.Rooms.{IsRoom, RoomGrows};
ghost use Rattle.quad_mat.specs.Loading.{AreBelow, AreNumbersOf};
ghost use Rattle.quad_mat.specs.Pairs.{beside, IsPair, IsPairRow, KnowsPair, PairHas};

use crate::loading::{Body, Known, Window, loaded_row, numbers_for, unknown_in};
use crate::room::{Room, number_of_union};
use cell_sets::Cell;
use sqlite_items::Items;
use std::alloc::{AllocError, Global};

/// What is taken of two matrices.
#[derive(Clone, Copy)]
pub(crate) struct Windows {
    pub(crate) left: Window,
    pub(crate) right: Window,
}

/// Two matrices whole, of so many columns, of which the second stands from this column on.
pub(crate) fn side_by_side(left: u32, right: u32, to: u32) -> Windows
    ensures { result ≡ beside left right to }
{
    let left = Window {
        first: 0,
        width: left,
        to: 0,
    };
    let right = Window {
        first: 0,
        width: right,
        to,
    };
    Windows { left, right }
}

/// What is known of two matrices in a room.
#[derive(Drop)]
pub(crate) struct KnownPair {
    pub(crate) one: Known,
    pub(crate) other: Known,
}

/// A row of each of two matrices, by their numbers there, and that of their union in the room.
#[derive(Clone, Copy)]
pub(crate) struct PairRow {
    left: u32,
    right: u32,
    both: u32,
}

/// The last pair, where it is of these rows.
fn if_same(last: Option<PairRow>, left: u32, right: u32) -> Option<PairRow>
    ensures { IfSome result (λ p. (last ≡ Some p) × (p.left ≡ left) × (p.right ≡ right)) }
{
    match last {
        Some(pair) => {
            if pair.left == left && pair.right == right {
                Some(pair)
            } else {
                None
            }
        }
        None => None,
    }
}

/// The number in the room of the union of what the windows have of a row of each matrix.
#[inline(never)]
fn number_of_pair<C: Cell>(
    alloc: Global,
    left: &Body<C>,
    right: &Body<C>,
    windows: Windows,
    known: &mut KnownPair,
    room: &mut Room<C>,
    n: u32,
    m: u32,
) -> Result<u32, AllocError>
    requires pair { IsPair C.symbols left.now right.now windows room.old.columns }
    requires left { n < length left.now.rows }
    requires right { m < length right.now.rows }
    requires room { IsRoom room.old.columns
        (map C.symbols room.old.cells.items) room.old.rows room.old.unions }
    requires known { KnowsPair C.symbols left.now right.now windows
        (map C.symbols room.old.cells.items) room.old.rows known.old }
    ensures columns { IfOk result (λ _. room.new.columns ≡ room.old.columns) }
    ensures grows { IfOk result (λ _. RoomGrows room.old.columns
        (map C.symbols room.old.cells.items) room.old.rows
        (map C.symbols room.new.cells.items) room.new.rows room.new.unions) }
    ensures known { IfOk result (λ _. KnowsPair C.symbols left.now right.now windows
        (map C.symbols room.new.cells.items) room.new.rows known.new) }
    ensures row { IfOk result (λ both. IsPairRow C.symbols left.now right.now windows n m
        (map C.symbols room.new.cells.items) room.new.rows both) }
{
    let one = loaded_row(alloc, left, &mut known.one, room, windows.left, n)?;
    let other = loaded_row(alloc, right, &mut known.other, room, windows.right, m)?;
    let both = number_of_union(alloc, room, one, other)?;
    Ok(both)
}

/// The union of a row of each matrix: the last one, where it is of the same rows.
fn next_pair<C: Cell>(
    alloc: Global,
    left: &Body<C>,
    right: &Body<C>,
    windows: Windows,
    known: &mut KnownPair,
    room: &mut Room<C>,
    last: Option<PairRow>,
    n: u32,
    m: u32,
) -> Result<PairRow, AllocError>
    requires pair { IsPair C.symbols left.now right.now windows room.old.columns }
    requires left { n < length left.now.rows }
    requires right { m < length right.now.rows }
    requires room { IsRoom room.old.columns
        (map C.symbols room.old.cells.items) room.old.rows room.old.unions }
    requires known { KnowsPair C.symbols left.now right.now windows
        (map C.symbols room.old.cells.items) room.old.rows known.old }
    requires last { IfSome last (λ p. IsPairRow C.symbols left.now right.now windows p.left p.right
        (map C.symbols room.old.cells.items) room.old.rows p.both) }
    ensures columns { IfOk result (λ _. room.new.columns ≡ room.old.columns) }
    ensures grows { IfOk result (λ _. RoomGrows room.old.columns
        (map C.symbols room.old.cells.items) room.old.rows
        (map C.symbols room.new.cells.items) room.new.rows room.new.unions) }
    ensures known { IfOk result (λ _. KnowsPair C.symbols left.now right.now windows
        (map C.symbols room.new.cells.items) room.new.rows known.new) }
    ensures rows { IfOk result (λ p. (p.left ≡ n) × (p.right ≡ m)) }
    ensures row { IfOk result (λ p. IsPairRow C.symbols left.now right.now windows n m
        (map C.symbols room.new.cells.items) room.new.rows p.both) }
{
    if let Some(pair) = if_same(last, n, m) {
        return Ok(pair);
    }
    let both = number_of_pair(alloc, left, right, windows, known, room, n, m)?;
    Ok(PairRow {
        left: n,
        right: m,
        both,
    })
}

/// For each row of the matrices the number in the room of the union of what the windows have.
pub(crate) fn paired_rows<C: Cell>(
    alloc: Global,
    left: &Body<C>,
    right: &Body<C>,
    windows: Windows,
    room: &mut Room<C>,
) -> Result<Items<u32>, AllocError>
    requires pair { IsPair C.symbols left.now right.now windows room.old.columns }
    requires count { length left.now.numbers ≡ length right.now.numbers }
    requires left { AreBelow (length left.now.rows) left.now.numbers }
    requires right { AreBelow (length right.now.rows) right.now.numbers }
    requires room { IsRoom room.old.columns
        (map C.symbols room.old.cells.items) room.old.rows room.old.unions }
    ensures columns { IfOk result (λ _. room.new.columns ≡ room.old.columns) }
    ensures grows { IfOk result (λ _. RoomGrows room.old.columns
        (map C.symbols room.old.cells.items) room.old.rows
        (map C.symbols room.new.cells.items) room.new.rows room.new.unions) }
    ensures count { IfOk result (λ numbers. length numbers ≡ length left.now.numbers) }
    ensures rows { IfOk result (λ numbers.
        AreNumbersOf (PairHas C.symbols left.now right.now windows)
        (map C.symbols room.new.cells.items) room.new.rows numbers) }
{
    let one = unknown_in(alloc, left)?;
    let other = unknown_in(alloc, right)?;
    let mut known = KnownPair { one, other };
    let lefts = left.numbers.as_slice();
    let rights = right.numbers.as_slice();
    let mut numbers = numbers_for(alloc, lefts.len())?;
    let mut last: Option<PairRow> = None;
    for i in 0..lefts.len() {
        let n = lefts[i];
        let m = rights[i];
        let next = next_pair(alloc, left, right, windows, &mut known, room, last, n, m)?;
        numbers.push(next.both)?;
        last = Some(next);
    }
    Ok(numbers)
}
