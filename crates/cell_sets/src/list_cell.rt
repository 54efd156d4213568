//! A set of symbols that is a list in rising order.
ghost use Rattle.std.specs.Prelude.{◌≡◌};
ghost use Rattle.cell_sets.specs.Cells.{IsRising};
ghost use Rattle.cell_sets.specs.ListCells.{vector_items};

use crate::comparing::{are_same, common_of, have_common};
use crate::merging::merged;
use crate::places::{has_in, insert_into, next_in};
use crate::{Cell, Room};
use std::alloc::{AllocError, Global};
use std::marker::Model;

/// A set of symbols of 16 bits as a list in rising order. It takes no memory until a symbol is
/// inserted.
#[derive(Drop)]
pub struct ListCell {
    items: Option<Vec<u16>>,
}

impl Model for ListCell {
    ghost use Rattle.std.specs.Prelude.{List, ℕ};
    ghost use Rattle.cell_sets.specs.Cells.{IsRising};
    ghost use Rattle.cell_sets.specs.ListCells.{vector_items};

    ghost Value = { List ℕ };

    ghost view = { λ c. vector_items c.items };

    ghost invariant = { λ c. IsRising (vector_items c.items) };
}

impl ListCell {
    /// The symbols, in rising order.
    pub fn as_slice(&self) -> &[u16]
        ensures items { result.now ≡ self.now }
        ensures rising { IsRising self.now }
    {
        match &self.items {
            Some(items) => items.as_slice(),
            None => &[],
        }
    }
}

/// The vector, or an empty one.
fn vector_of(alloc: Global, items: Option<Vec<u16>>) -> Vec<u16>
    ensures { result.items ≡ vector_items items }
{
    match items {
        Some(items) => items,
        None => Vec::new(alloc),
    }
}

impl Room for ListCell {
    const ROOM: u32 = 65536;

    ghost ROOM = { 65536 };
}

impl Cell for ListCell {
    ghost symbols = { λ c. c };

    fn empty() -> Self {
        ListCell { items: None }
    }

    fn is_empty(&self) -> bool {
        self.as_slice().is_empty()
    }

    fn has(&self, symbol: u16) -> bool {
        has_in(self.as_slice(), symbol)
    }

    fn next_from(&self, symbol: u16) -> Option<u16> {
        next_in(self.as_slice(), symbol)
    }

    fn insert(&mut self, alloc: Global, symbol: u16) -> Result<bool, AllocError> {
        let mut items = vector_of(alloc, self.items.take());
        let new = insert_into(&mut items, symbol);
        self.items = Some(items);
        new
    }

    fn union(&self, alloc: Global, other: &Self) -> Result<Self, AllocError> {
        let both = merged(alloc, self.as_slice(), other.as_slice())?;
        Ok(ListCell { items: Some(both) })
    }

    fn meets(&self, other: &Self) -> bool {
        have_common(self.as_slice(), other.as_slice())
    }

    fn common(&self, alloc: Global, other: &Self) -> Result<Self, AllocError> {
        let common = common_of(alloc, self.as_slice(), other.as_slice())?;
        Ok(ListCell {
            items: Some(common),
        })
    }

    fn same(&self, other: &Self) -> bool {
        are_same(self.as_slice(), other.as_slice())
    }
}
