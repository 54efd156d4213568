//! Sets of positions.
ghost use Rattle.std.specs.Prelude.{◌≡◌, [], OnOk};
ghost use Rattle.cell_sets.specs.Cells.{AddsSymbol, IsRising};

use std::alloc::{AllocError, Global};
use std::marker::Model;

fn insert_into(positions: &mut Vec<u32>, position: u32) -> Result<(), AllocError>
    requires { IsRising positions.old.items }
    ensures ok { OnOk result (AddsSymbol positions.old.items positions.new.items position) }
    ensures rising { IsRising positions.new.items }
{
    match positions.as_slice().binary_search(&position) {
        Ok(_) => Ok(()),
        Err(at) => {
            positions.insert(at, position)?;
            Ok(())
        }
    }
}

/// A set of positions in rising order, seen as their list.
#[derive(Debug, Drop)]
pub(crate) struct PositionSet {
    positions: Vec<u32>,
}

impl Model for PositionSet {
    ghost use Rattle.std.specs.Prelude.{List, ℕ};
    ghost use Rattle.cell_sets.specs.Cells.{IsRising};

    ghost Value = { List ℕ };

    ghost view = { λ set. set.positions.items };

    ghost invariant = { λ set. IsRising set.positions.items };
}

impl PositionSet {
    /// No positions. It takes no memory.
    pub(crate) fn new(alloc: Global) -> PositionSet
        ensures { result ≡ [] }
    {
        PositionSet {
            positions: Vec::new(alloc),
        }
    }

    /// Adds the position. Where it is there already, nothing changes.
    pub(crate) fn insert(&mut self, position: u32) -> Result<(), AllocError>
        ensures { OnOk result (AddsSymbol self.old self.new position) }
    {
        insert_into(&mut self.positions, position)
    }

    /// The positions, in rising order.
    pub(crate) fn as_slice(&self) -> &[u32]
        ensures positions { result.now ≡ self.now }
        ensures rising { IsRising self.now }
    {
        self.positions.as_slice()
    }
}
