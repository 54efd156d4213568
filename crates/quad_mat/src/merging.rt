//! The union of two rows, column by column.
ghost use Rattle.std.specs.Prelude.{ℕ, ◌+◌, ◌<◌, ◌≤◌, length, map, IfOk};
ghost use Rattle.quad_mat.specs.declared.merging.Side.TheVariants.{Both};
ghost use Rattle.quad_mat.specs.Rows.{AreCellsBelow, AreFull, IsRow};
ghost use Rattle.quad_mat.specs.Rooms.{IsNextSide, IsStep, IsMerged};

use crate::cells::number_of_both;
use crate::entries::{Entry, Row};
use cell_sets::Cell;
use sqlite_items::Items;
use std::alloc::{AllocError, Global};

/// Which of two rows has the next column.
#[derive(Clone, Copy)]
enum Side {
    Left,
    Right,
    Both,
}

/// The next entry of a union, and the places behind it in the two rows.
#[derive(Clone, Copy)]
struct Step {
    entry: Entry,
    i: usize,
    j: usize,
}

/// Which row has the next column, from these places on.
fn next_side(left: &[Entry], right: &[Entry], i: usize, j: usize) -> Side
    requires left { i ≤ length left.now }
    requires right { j ≤ length right.now }
    requires more { i + j < length left.now + length right.now }
    ensures { IsNextSide left.now right.now i j result }
{
    if i == left.len() {
        return Side::Right;
    }
    if j == right.len() {
        return Side::Left;
    }
    if left[i].column < right[j].column {
        Side::Left
    } else if right[j].column < left[i].column {
        Side::Right
    } else {
        Side::Both
    }
}

/// The next entry where both rows have its column: its cell is the union.
fn step_of_both<C: Cell>(
    alloc: Global,
    cells: &mut Vec<C>,
    left: &[Entry],
    right: &[Entry],
    i: usize,
    j: usize,
) -> Result<Step, AllocError>
    requires full { AreFull (map C.symbols cells.old.items) }
    requires both { IsNextSide left.now right.now i j Both }
    requires left_cells { AreCellsBelow (length (map C.symbols cells.old.items)) left.now }
    requires right_cells { AreCellsBelow (length (map C.symbols cells.old.items)) right.now }
    ensures { IfOk result (λ step. IsStep
        (map C.symbols cells.old.items) (map C.symbols cells.new.items)
        left.now right.now i j step) }
{
    let cell = number_of_both(alloc, cells, left[i].cell, right[j].cell)?;
    Ok(Step {
        entry: Entry {
            column: left[i].column,
            cell,
        },
        i: i + 1,
        j: j + 1,
    })
}

/// The next entry, from these places on. Where both rows have its column, its cell is the union.
fn next_step<C: Cell>(
    alloc: Global,
    cells: &mut Vec<C>,
    left: &[Entry],
    right: &[Entry],
    i: usize,
    j: usize,
) -> Result<Step, AllocError>
    requires full { AreFull (map C.symbols cells.old.items) }
    requires left { i ≤ length left.now }
    requires right { j ≤ length right.now }
    requires more { i + j < length left.now + length right.now }
    requires left_cells { AreCellsBelow (length (map C.symbols cells.old.items)) left.now }
    requires right_cells { AreCellsBelow (length (map C.symbols cells.old.items)) right.now }
    ensures { IfOk result (λ step. IsStep
        (map C.symbols cells.old.items) (map C.symbols cells.new.items)
        left.now right.now i j step) }
{
    match next_side(left, right, i, j) {
        Side::Left => Ok(Step {
            entry: left[i],
            i: i + 1,
            j,
        }),
        Side::Right => Ok(Step {
            entry: right[j],
            i,
            j: j + 1,
        }),
        Side::Both => step_of_both(alloc, cells, left, right, i, j),
    }
}

/// The union of two rows over the same cells, to which unions of cells are added.
pub(crate) fn merged<C: Cell>(
    alloc: Global,
    cells: &mut Vec<C>,
    left: &[Entry],
    right: &[Entry],
    columns: u32,
) -> Result<Row, AllocError>
    requires full { AreFull (map C.symbols cells.old.items) }
    requires left { IsRow (length (map C.symbols cells.old.items)) columns left.now }
    requires right { IsRow (length (map C.symbols cells.old.items)) columns right.now }
    ensures { IfOk result (λ row. IsMerged columns
        (map C.symbols cells.old.items) (map C.symbols cells.new.items)
        left.now right.now row) }
{
    let mut row = Items::new(alloc);
    let mut i = 0;
    let mut j = 0;
    while i < left.len() || j < right.len() {
        let step = next_step(alloc, cells, left, right, i, j)?;
        row.push(step.entry)?;
        i = step.i;
        j = step.j;
    }
    Ok(row)
}
