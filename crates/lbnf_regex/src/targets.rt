//! What bytes lead to.
ghost use Rattle.std.specs.Prelude.{◌≡◌, ◌+◌, ◌<◌, ◌^◌, [], length, map, replicate};
ghost use Rattle.std.specs.Prelude.{slice_index_or, Contains, IfOk, OnOk};
ghost use Rattle.cell_sets.specs.Cells.{IsRising};
ghost use Rattle.spec_automata.specs.Encoding.{one_of_these};
ghost use Rattle.spec_automata.specs.Positions.{position_count};
ghost use Rattle.lbnf_regex.specs.Owners.{owners_from};
ghost use Rattle.lbnf_regex.specs.Patterns.{bytes_of_pattern};
ghost use Rattle.lbnf_regex.specs.Sets.{AddsTargets, AreExpected, AreTargets, HaveFewPositions};
ghost use Rattle.lbnf_regex.specs.Sets.{LeadsFrom, StepsFrom};
ghost use Rattle.lbnf_regex.specs.Steps.{HasFewPositions, LeadsTo};
ghost use Rattle.lbnf_regex.specs.declared.next_byte.NextByte.TheVariants.{InComment};

use crate::comment::border;
use crate::marked::expect_any;
use crate::next_byte::NextByte;
use crate::owner::Owner;
use crate::pattern::Pattern;
use crate::position_set::PositionSet;
use sqlite_items::Items;
use std::alloc::{AllocError, Global};
use std::marker::Model;

/// For each byte the positions that it leads to.
#[derive(Debug, Drop)]
pub(crate) struct Targets {
    sets: Vec<PositionSet>,
}

impl Model for Targets {
    ghost use Rattle.std.specs.Prelude.{◌≡◌, List, ℕ, length};

    ghost Value = { List (List ℕ) };

    ghost view = { λ targets. targets.sets.items };

    ghost invariant = { λ targets. length targets.sets.items ≡ 256 };
}

impl Targets {
    /// No byte leads to any position.
    fn new(alloc: Global) -> Result<Targets, AllocError>
        ensures { IfOk result (λ targets. targets ≡ replicate 256 []) }
    {
        let mut sets = Vec::with_capacity(alloc, 256)?;
        for _byte in 0..256usize {
            sets.push(PositionSet::new(alloc))?;
        }
        Ok(Targets { sets })
    }

    fn add(&mut self, byte: u8, position: u32) -> Result<(), AllocError>
        ensures { OnOk result
            (AddsTargets (λ b p. (b ≡ byte) × (p ≡ position)) self.old self.new) }
    {
        self.sets[byte as usize].insert(position)?;
        Ok(())
    }

    /// Each byte of the set leads to the position.
    fn add_set(&mut self, position: u32, set: &[u8]) -> Result<(), AllocError>
        ensures { OnOk result
            (AddsTargets (λ b p. Contains set.now b × (p ≡ position)) self.old self.new) }
    {
        for byte in set {
            self.add(*byte, position)?;
        }
        Ok(())
    }

    /// Each byte leads to so much of the closing text as has then been read.
    fn add_comment(&mut self, first: u32, closing: &[u8], size: usize) -> Result<(), AllocError>
        requires within { size < length closing.now }
        requires room { first + length closing.now < 2 ^ 32 }
        ensures { OnOk result
            (AddsTargets (LeadsTo (InComment first closing.now size)) self.old self.new) }
    {
        for byte in 0..256u16 {
            let longer = border(closing, size, byte as u8);
            self.add(byte as u8, first + longer as u32)?;
        }
        Ok(())
    }

    /// Each byte leads to what it does, read in this way.
    fn add_way(&mut self, next: &NextByte) -> Result<(), AllocError>
        requires { HasFewPositions next.now }
        ensures { OnOk result (AddsTargets (LeadsTo next.now) self.old self.new) }
    {
        match next {
            NextByte::InSet { position, set } => self.add_set(*position, set.as_slice()),
            NextByte::InComment {
                first,
                closing,
                size,
            } => self.add_comment(*first, closing.as_slice(), *size),
        }
    }

    /// The positions that the byte leads to, in rising order.
    pub(crate) fn of_byte(&self, byte: u8) -> &[u32]
        ensures positions { result.now ≡ slice_index_or self.now byte [] }
        ensures rising { IsRising result.now }
    {
        self.sets[byte as usize].as_slice()
    }
}

/// What each byte leads to, read in one of these ways.
fn targets_by(alloc: Global, expected: &[NextByte]) -> Result<Targets, AllocError>
    requires { HaveFewPositions expected.now }
    ensures { IfOk result (AreTargets (LeadsFrom expected.now)) }
{
    let mut targets = Targets::new(alloc)?;
    for next in expected {
        targets.add_way(next)?;
    }
    Ok(targets)
}

/// Each way in which one of the kinds, of these owners, expects a byte in the state; the start is
/// the empty set.
fn expected(
    alloc: Global,
    kinds: &[Pattern],
    owners: &[Owner],
    state: &[u32],
) -> Result<Items<NextByte>, AllocError>
    requires room { position_count (one_of_these (map bytes_of_pattern kinds.now)) < 2 ^ 32 }
    requires owners { owners.now ≡ owners_from (map bytes_of_pattern kinds.now) 0 0 }
    ensures ok { IfOk result
        (AreExpected (one_of_these (map bytes_of_pattern kinds.now)) state.now) }
    ensures small { IfOk result HaveFewPositions }
{
    let mut expected = Items::new(alloc);
    expect_any(alloc, kinds, owners, state.is_empty(), state, &mut expected)?;
    Ok(expected)
}

/// What each byte leads to from the state, for kinds of these owners.
pub(crate) fn targets_from(
    alloc: Global,
    kinds: &[Pattern],
    owners: &[Owner],
    state: &[u32],
) -> Result<Targets, AllocError>
    requires room { position_count (one_of_these (map bytes_of_pattern kinds.now)) < 2 ^ 32 }
    requires owners { owners.now ≡ owners_from (map bytes_of_pattern kinds.now) 0 0 }
    ensures { IfOk result (AreTargets
        (StepsFrom (one_of_these (map bytes_of_pattern kinds.now)) state.now)) }
{
    let expected = expected(alloc, kinds, owners, state)?;
    targets_by(alloc, expected.as_slice())
}
