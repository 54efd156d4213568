//! What follows from implications, in an order in which each number follows from those before it.
//! Of each implication the premises are a list, and the conclusion is a number.
ghost use Rattle.std.specs.Prelude.{◌≡◌, ℕ, ◌+◌, ◌<◌, ◌≤◌, [], length, Contains, IfOk, OnOk, IsTrue};
ghost use Rattle.std.specs.Prelude.{slice_index_or};
ghost use Rattle.number_graph.specs.Graphs.{IsSet};
ghost use Rattle.number_graph.specs.Derivations.{AreWithin, IsBlank, IsFound, IsUnderWay};
ghost use Rattle.number_graph.specs.Derivations.{IsSettledUpTo, SettlesEach};

use crate::closure::flag;
use crate::links::Links;
use sqlite_items::Items;
use std::alloc::{AllocError, Global};
use std::mem;

/// How far a search has come.
#[derive(Drop)]
pub(crate) struct Search {
    /// For each number, whether it is known to follow.
    pub(crate) flags: Vec<bool>,
    /// The numbers that are known to follow, as they were found.
    pub(crate) order: Vec<u16>,
    /// For each implication, a place before which all its premises are known to follow.
    places: Vec<usize>,
    /// For each number, the implications that wait for it.
    waiting: Vec<Items<usize>>,
}

/// The place of the first number from this place on whose flag is clear, or the length.
fn first_clear(numbers: &[u16], from: usize, flags: &[bool]) -> usize
    requires { (n : ℕ) → Contains numbers.now n → n < length flags.now }
    ensures set { (k : ℕ) → from ≤ k → k < result → k < length numbers.now
        → IsSet flags.now (slice_index_or numbers.now k 0) }
    ensures clear { result < length numbers.now
        → IsSet flags.now (slice_index_or numbers.now result 0) → ⊥ }
{
    for place in from..numbers.len() {
        if !flags[numbers[place] as usize] {
            return place;
        }
    }
    numbers.len()
}

impl Search {
    /// A search among so many numbers and implications, of which it knows nothing yet.
    fn new(alloc: Global, numbers: usize, implications: usize) -> Result<Search, AllocError>
        ensures { IfOk result (IsBlank numbers implications) }
    {
        let flags = vec![in alloc; false; numbers]?;
        let places = vec![in alloc; 0; implications]?;
        let mut waiting = Vec::with_capacity(alloc, numbers)?;
        for _number in 0..numbers {
            waiting.push(Items::new(alloc))?;
        }
        Ok(Search {
            flags,
            order: Vec::new(alloc),
            places,
            waiting,
        })
    }

    /// Lets the implication wait for a premise of it that is not known to follow, or flags its
    /// conclusion where there is none.
    fn settle(
        &mut self,
        premises: &Links,
        conclusions: &[u16],
        implication: usize,
    ) -> Result<(), AllocError>
        requires within { AreWithin (length self.old.flags.items) premises.now conclusions.now }
        requires under_way { IsUnderWay premises.now conclusions.now self.old }
        requires implication { implication < length conclusions.now }
        ensures { OnOk result
            (SettlesEach premises.now conclusions.now (λ i. i ≡ implication) self.old self.new) }
    {
        let numbers = premises.list(implication);
        let place = first_clear(numbers, self.places[implication], self.flags.as_slice());
        self.places[implication] = place;
        match numbers.get(place) {
            Some(premise) => self.waiting[*premise as usize].push(implication),
            None => flag(conclusions[implication], &mut self.flags, &mut self.order),
        }
    }

    fn settle_all(
        &mut self,
        premises: &Links,
        conclusions: &[u16],
        implications: &[usize],
    ) -> Result<(), AllocError>
        requires within { AreWithin (length self.old.flags.items) premises.now conclusions.now }
        requires under_way { IsUnderWay premises.now conclusions.now self.old }
        requires implications { (i : ℕ) → Contains implications.now i → i < length conclusions.now }
        ensures { OnOk result (SettlesEach premises.now conclusions.now
            (Contains implications.now) self.old self.new) }
    {
        for implication in implications {
            self.settle(premises, conclusions, *implication)?;
        }
        Ok(())
    }

    /// Settles the implications that wait for the number at this place of the order.
    fn settle_behind(
        &mut self,
        alloc: Global,
        premises: &Links,
        conclusions: &[u16],
        place: usize,
    ) -> Result<(), AllocError>
        requires within { AreWithin (length self.old.flags.items) premises.now conclusions.now }
        requires place { place < length self.old.order.items }
        requires settled { IsSettledUpTo premises.now conclusions.now
            (length self.old.flags.items) place self.old }
        ensures { OnOk result (IsSettledUpTo premises.now conclusions.now
            (length self.old.flags.items) (place + 1) self.new) }
    {
        let number = self.order[place];
        let waiting = mem::replace(&mut self.waiting[number as usize], Items::new(alloc));
        self.settle_all(premises, conclusions, waiting.as_slice())
    }
}

/// A search in which each implication is settled, and no number was looked at.
fn settled(
    alloc: Global,
    numbers: usize,
    premises: &Links,
    conclusions: &[u16],
) -> Result<Search, AllocError>
    requires { AreWithin numbers premises.now conclusions.now }
    ensures { IfOk result (IsSettledUpTo premises.now conclusions.now numbers 0) }
{
    let mut search = Search::new(alloc, numbers, conclusions.len())?;
    for implication in 0..conclusions.len() {
        search.settle(premises, conclusions, implication)?;
    }
    Ok(search)
}

/// What follows from the implications, among so many numbers. Each implication waits for one
/// premise at a time, and goes on behind it, so that each premise is looked at once or twice.
pub(crate) fn derivation(
    alloc: Global,
    numbers: usize,
    premises: &Links,
    conclusions: &[u16],
) -> Result<Search, AllocError>
    requires { AreWithin numbers premises.now conclusions.now }
    ensures { IfOk result (IsFound premises.now conclusions.now numbers) }
{
    let mut search = settled(alloc, numbers, premises, conclusions)?;
    let mut next = 0;
    while next < search.order.len() {
        search.settle_behind(alloc, premises, conclusions, next)?;
        next += 1;
    }
    Ok(search)
}
