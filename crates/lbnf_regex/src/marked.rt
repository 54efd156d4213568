//! What the kinds with marked positions expect next.
ghost use Rattle.std.specs.Prelude.{◌≡◌, ◌<◌, ◌^◌, false, length, map, Contains, IfOk, IsTrue};
ghost use Rattle.std.specs.Prelude.{slice_index_or, OnOk, Some};
ghost use Rattle.spec_automata.specs.Encoding.{one_of_these};
ghost use Rattle.spec_automata.specs.Positions.{position_count};
ghost use Rattle.lbnf_regex.specs.Owners.{owners_from, AddsOwnedAt, HasAllOf};
ghost use Rattle.lbnf_regex.specs.Patterns.{bytes_of_pattern};
ghost use Rattle.lbnf_regex.specs.Steps.{AddsExpected};

use crate::expecting::{expect, expect_one_of};
use crate::next_byte::NextByte;
use crate::owner::Owner;
use crate::pattern::Pattern;
use sqlite_items::Items;
use std::alloc::{AllocError, Global};

fn is_last(last: Option<usize>, place: usize) -> bool
    ensures { IsTrue result → last ≡ Some place }
{
    match last {
        Some(other) => other == place,
        None => false,
    }
}

fn kind_at(kinds: &[Pattern], place: usize) -> &Pattern
    requires { place < length kinds.now }
    ensures { result.now ≡ slice_index_or kinds.now place result.now }
{
    &kinds[place]
}

/// Adds each way in which the kind of the mark expects the next byte, unless it is the kind that
/// was gone through last. Answers which one that is now.
fn expect_owned(
    alloc: Global,
    kinds: &[Pattern],
    owners: &[Owner],
    mark: u32,
    last: Option<usize>,
    marks: &[u32],
    into: &mut Items<NextByte>,
) -> Result<Option<usize>, AllocError>
    requires room { position_count (one_of_these (map bytes_of_pattern kinds.now)) < 2 ^ 32 }
    requires owners { owners.now ≡ owners_from (map bytes_of_pattern kinds.now) 0 0 }
    requires last { HasAllOf (map bytes_of_pattern kinds.now) (Contains marks.now) last into.old }
    ensures adds { IfOk result (λ now. AddsOwnedAt (map bytes_of_pattern kinds.now)
        (Contains marks.now) mark into.old into.new) }
    ensures last { IfOk result (λ now. HasAllOf (map bytes_of_pattern kinds.now)
        (Contains marks.now) now into.new) }
{
    let Some(owner) = owners.get(mark as usize) else {
        return Ok(last);
    };
    let place = owner.place;
    if is_last(last, place) {
        return Ok(last);
    }
    expect(
        alloc,
        kind_at(kinds, place),
        owner.first,
        false,
        marks,
        into,
    )?;
    Ok(Some(place))
}

/// Adds each way in which one of the kinds expects the next byte, where none is entered. Kinds
/// without marked positions are passed over.
pub(crate) fn expect_marked(
    alloc: Global,
    kinds: &[Pattern],
    owners: &[Owner],
    marks: &[u32],
    into: &mut Items<NextByte>,
) -> Result<(), AllocError>
    requires room { position_count (one_of_these (map bytes_of_pattern kinds.now)) < 2 ^ 32 }
    requires owners { owners.now ≡ owners_from (map bytes_of_pattern kinds.now) 0 0 }
    ensures { OnOk result (AddsExpected (one_of_these (map bytes_of_pattern kinds.now)) 0
        (IsTrue false) (Contains marks.now) into.old into.new) }
{
    let mut last = None;
    for mark in marks {
        last = expect_owned(alloc, kinds, owners, *mark, last, marks, into)?;
    }
    Ok(())
}

/// Adds each way in which one of the kinds expects the next byte, where all are entered or some
/// have marked positions.
pub(crate) fn expect_any(
    alloc: Global,
    kinds: &[Pattern],
    owners: &[Owner],
    entered: bool,
    marks: &[u32],
    into: &mut Items<NextByte>,
) -> Result<(), AllocError>
    requires room { position_count (one_of_these (map bytes_of_pattern kinds.now)) < 2 ^ 32 }
    requires owners { owners.now ≡ owners_from (map bytes_of_pattern kinds.now) 0 0 }
    ensures { OnOk result (AddsExpected (one_of_these (map bytes_of_pattern kinds.now)) 0
        (IsTrue entered) (Contains marks.now) into.old into.new) }
{
    if entered {
        expect_one_of(alloc, kinds, 0, true, marks, into)
    } else {
        expect_marked(alloc, kinds, owners, marks, into)
    }
}
