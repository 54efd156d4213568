//! Links from numbers to numbers.
ghost use Rattle.std.specs.Prelude.{◌≡◌, ℕ, ◌<◌, ◌↔◌, [], length, Contains, slice_index_or, IsTrue};
ghost use Rattle.std.specs.Prelude.{IfOk, OnOk, OnErr};
ghost use Rattle.number_graph.specs.Graphs.{AddsLink, AddsLinks, AreNoLinks, PushesLinks};

use cell_sets::{Cell, ListCell};
use std::alloc::{AllocError, Global};
use std::marker::Model;

/// A list of these numbers in rising order, each once.
fn cell_of(alloc: Global, numbers: &[u16]) -> Result<ListCell, AllocError>
    ensures { IfOk result (λ cell. (n : ℕ) → Contains cell n ↔ Contains numbers.now n) }
{
    let mut cell = ListCell::empty();
    for number in numbers {
        cell.insert(alloc, *number)?;
    }
    Ok(cell)
}

/// For each number, the numbers that it is linked to, in rising order.
#[derive(Drop)]
pub struct Links {
    alloc: Global,
    lists: Vec<ListCell>,
}

impl Model for Links {
    ghost use Rattle.std.specs.Prelude.{List, ℕ};
    ghost use Rattle.number_graph.specs.Graphs.{AreRising};

    ghost Value = { List (List ℕ) };

    ghost view = { λ links. links.lists.items };

    ghost invariant = { λ links. AreRising links.lists.items };
}

impl Links {
    /// No links, among so many numbers.
    pub fn new(alloc: Global, count: usize) -> Result<Links, AllocError>
        ensures { IfOk result (AreNoLinks count) }
    {
        let mut lists = Vec::with_capacity(alloc, count)?;
        for _number in 0..count {
            lists.push(ListCell::empty())?;
        }
        Ok(Links { alloc, lists })
    }

    /// How many numbers there are.
    pub fn count(&self) -> usize
        ensures { result ≡ length self.now }
    {
        self.lists.len()
    }

    /// The numbers that this one is linked to, each once, in rising order.
    pub fn from(&self, number: u16) -> &[u16]
        requires { number < length self.now }
        ensures { result.now ≡ slice_index_or self.now number [] }
    {
        self.list(number as usize)
    }

    /// The numbers that the one at this place is linked to, each once, in rising order.
    pub(crate) fn list(&self, place: usize) -> &[u16]
        requires { place < length self.now }
        ensures { result.now ≡ slice_index_or self.now place [] }
    {
        self.lists[place].as_slice()
    }

    /// Links one number to another. Where they are linked already, nothing changes.
    pub fn add(&mut self, from: u16, to: u16) -> Result<(), AllocError>
        requires { from < length self.old }
        ensures ok { OnOk result (AddsLink self.old self.new from to) }
        ensures err { OnErr result (self.new ≡ self.old) }
    {
        self.lists[from as usize].insert(self.alloc, to)?;
        Ok(())
    }

    /// Links one number to another where the test holds.
    pub fn add_if(&mut self, test: bool, from: u16, to: u16) -> Result<(), AllocError>
        requires { IsTrue test → from < length self.old }
        ensures ok { OnOk result
            (AddsLinks (λ m n. IsTrue test × (m ≡ from) × (n ≡ to)) self.old self.new) }
        ensures err { OnErr result (self.new ≡ self.old) }
    {
        if test {
            self.add(from, to)?;
        }
        Ok(())
    }

    /// One number more, and links from it to these.
    pub(crate) fn push(&mut self, targets: &[u16]) -> Result<(), AllocError>
        ensures ok { OnOk result (PushesLinks self.old self.new targets.now) }
        ensures err { OnErr result (self.new ≡ self.old) }
    {
        let cell = cell_of(self.alloc, targets)?;
        self.lists.push(cell)?;
        Ok(())
    }
}
