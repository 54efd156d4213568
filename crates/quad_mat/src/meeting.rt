//! Which cells of the left matrix make something with a cell of the right one. An entry with any
//! other cell adds nothing to a product.
ghost use Rattle.std.specs.Prelude.{length, map, IfOk};
ghost use Rattle.cell_sets.specs.Cells.{Meet};
ghost use Rattle.quad_mat.specs.Meeting.{AreFlagsOfFirst, AreMeeting, IsUnionOfFirst};

use crate::images::Factors;
use cell_sets::Cell;
use std::alloc::{AllocError, Global};

/// A cell with what any of these has.
fn union_of_all<C: Cell>(alloc: Global, cells: &[C]) -> Result<C, AllocError>
    ensures { IfOk result (λ all. IsUnionOfFirst
        (map C.symbols cells.now) (length (map C.symbols cells.now)) (C.symbols all)) }
{
    let mut all = C::empty();
    for cell in cells {
        all = all.union(alloc, cell)?;
    }
    Ok(all)
}

/// For each cell whether it has one of the symbols.
fn which_have<C: Cell>(alloc: Global, cells: &[C], symbols: &C) -> Result<Vec<bool>, AllocError>
    ensures { IfOk result (λ flags. AreFlagsOfFirst (λ cell. Meet cell (C.symbols symbols.now))
        (map C.symbols cells.now) (length (map C.symbols cells.now)) flags.items) }
{
    let mut flags = Vec::with_capacity(alloc, cells.len())?;
    for cell in cells {
        flags.push(cell.meets(symbols))?;
    }
    Ok(flags)
}

/// For each cell of the left matrix whether it makes something with a cell of the right one: whether
/// it has a symbol that is left of one of those cells' in a rule.
pub(crate) fn meeting_cells<C: Cell>(
    alloc: Global,
    factors: &Factors<C>,
) -> Result<Vec<bool>, AllocError>
    ensures { IfOk result (λ flags. AreMeeting C.symbols
        factors.now.bin.now factors.now.left.now factors.now.right.now flags.items) }
{
    let all: C = union_of_all(alloc, factors.right.cells.as_slice())?;
    let partners: C = factors.bin.left_partners(alloc, &all)?;
    which_have(alloc, factors.left.cells.as_slice(), &partners)
}
