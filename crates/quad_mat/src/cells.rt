//! Cells by number, each kept once where it comes again soon, or at all.
ghost use Rattle.std.specs.Prelude.{◌≡◌, ◌<◌, ◌^◌, [], length, map, IfOk, MatchOption};
ghost use Rattle.cell_sets.specs.Cells.{HaveSame};
ghost use Rattle.quad_mat.specs.Rows.{cell_of, AreFull, IsMissingFrom, StayDifferent};
ghost use Rattle.quad_mat.specs.Rooms.{NumbersCell, NumbersBoth};
ghost use Rattle.quad_mat.specs.Products.{NumbersSome};

use cell_sets::Cell;
use std::alloc::{AllocError, Global};

/// Among how many of the last cells, rows and unions an equal one is looked for.
pub(crate) const LOOK_BACK: usize = 4;

/// The number of what stands at this place.
pub(crate) fn number_of(place: usize) -> Result<u32, AllocError>
    ensures { IfOk result (λ n. n ≡ place) }
{
    match u32::try_from(place) {
        Ok(number) => Ok(number),
        Err(_) => Err(AllocError),
    }
}

/// Where a cell with the same symbols stands, from this place on. The last ones come first.
fn place_of_cell<C: Cell>(cells: &[C], cell: &C, from: usize) -> Option<usize>
    ensures { MatchOption result
        (IsMissingFrom (map C.symbols cells.now) from (C.symbols cell.now))
        (λ n. (n < length cells.now)
        × HaveSame (C.symbols cell.now) (cell_of (map C.symbols cells.now) n)) }
{
    let mut place = cells.len();
    while place > from {
        place -= 1;
        if cell.same(&cells[place]) {
            return Some(place);
        }
    }
    None
}

/// The number of a cell with these symbols. It is put behind the others, unless one from this place
/// on has the same. From 0 on none is put there twice.
pub(crate) fn number_from<C: Cell>(
    cells: &mut Vec<C>,
    cell: C,
    from: usize,
) -> Result<u32, AllocError>
    requires full { AreFull (map C.symbols cells.old.items) }
    requires some { C.symbols cell ≡ [] → ⊥ }
    ensures number { IfOk result (λ n. NumbersCell
        (map C.symbols cells.old.items) (map C.symbols cells.new.items) (C.symbols cell) n) }
    ensures different { IfOk result (λ _. from ≡ 0
        → StayDifferent (map C.symbols cells.old.items) (map C.symbols cells.new.items)) }
{
    if let Some(place) = place_of_cell(cells.as_slice(), &cell, from) {
        return number_of(place);
    }
    let number = number_of(cells.len())?;
    cells.push(cell)?;
    Ok(number)
}

/// The number of a cell with these symbols. It is put behind the others, unless one of the last has
/// the same.
pub(crate) fn number_of_cell<C: Cell>(cells: &mut Vec<C>, cell: C) -> Result<u32, AllocError>
    requires full { AreFull (map C.symbols cells.old.items) }
    requires some { C.symbols cell ≡ [] → ⊥ }
    ensures { IfOk result (λ n. NumbersCell
        (map C.symbols cells.old.items) (map C.symbols cells.new.items) (C.symbols cell) n) }
{
    let from = cells.len().saturating_sub(LOOK_BACK);
    number_from(cells, cell, from)
}

/// The number of a cell with these symbols, None where it has none.
pub(crate) fn number_unless_empty<C: Cell>(
    cells: &mut Vec<C>,
    cell: C,
) -> Result<Option<u32>, AllocError>
    requires full { AreFull (map C.symbols cells.old.items) }
    ensures { IfOk result (λ number. NumbersSome
        (map C.symbols cells.old.items) (map C.symbols cells.new.items)
        (C.symbols cell) number) }
{
    if cell.is_empty() {
        return Ok(None);
    }
    let number = number_of_cell(cells, cell)?;
    Ok(Some(number))
}

/// The number of a cell with the symbols of two others.
pub(crate) fn number_of_both<C: Cell>(
    alloc: Global,
    cells: &mut Vec<C>,
    a: u32,
    b: u32,
) -> Result<u32, AllocError>
    requires full { AreFull (map C.symbols cells.old.items) }
    requires left { a < length cells.old.items }
    requires right { b < length cells.old.items }
    ensures { IfOk result (λ n. NumbersBoth
        (map C.symbols cells.old.items) (map C.symbols cells.new.items) a b n) }
{
    if a == b {
        return Ok(a);
    }
    let both: C = cells[a as usize].union(alloc, &cells[b as usize])?;
    number_of_cell(cells, both)
}
