//! Which kind a state accepts.
ghost use Rattle.std.specs.Prelude.{◌≡◌, ◌<◌, ◌^◌, map, Contains, IfOk};
ghost use Rattle.spec_automata.specs.Encoding.{one_of_these};
ghost use Rattle.spec_automata.specs.Positions.{position_count};
ghost use Rattle.lbnf_regex.specs.Patterns.{bytes_of_pattern, sizes_of};
ghost use Rattle.lbnf_regex.specs.States.{ArePlaces, IsLeastEnding};

use crate::expecting::can_end_within;
use crate::pattern::Pattern;
use crate::state_list::States;
use sqlite_items::Items;
use std::alloc::{AllocError, Global};

/// The place of the first kind of which a match can end at a marked position. The positions of the
/// kinds, whose sizes are given, are numbered in turn.
fn least_place(kinds: &[Pattern], sizes: &[u32], marks: &[u32]) -> Option<usize>
    requires room { position_count (one_of_these (map bytes_of_pattern kinds.now)) < 2 ^ 32 }
    requires sizes { sizes.now ≡ sizes_of kinds.now }
    ensures { IsLeastEnding (map bytes_of_pattern kinds.now) (Contains marks.now) result }
{
    let mut start = 0;
    for i in 0..kinds.len() {
        let kind = &kinds[i];
        let count = sizes[i];
        if can_end_within(kind, start, count, marks) {
            return Some(i);
        }
        start += count;
    }
    None
}

/// For each state the place of the first kind that it accepts, if there is one.
pub(crate) fn places(
    alloc: Global,
    kinds: &[Pattern],
    sizes: &[u32],
    states: &States,
) -> Result<Items<Option<usize>>, AllocError>
    requires room { position_count (one_of_these (map bytes_of_pattern kinds.now)) < 2 ^ 32 }
    requires sizes { sizes.now ≡ sizes_of kinds.now }
    ensures { IfOk result (ArePlaces (map bytes_of_pattern kinds.now) states.now) }
{
    let mut places = Items::new(alloc);
    for i in 0..states.len() {
        places.push(least_place(kinds, sizes, states.at(i)))?;
    }
    Ok(places)
}
