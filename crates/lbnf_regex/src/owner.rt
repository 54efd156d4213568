//! Which kind each position is of.
ghost use Rattle.std.specs.Prelude.{◌≡◌, ◌+◌, ◌<◌, ◌^◌, ◌++◌, map, replicate, IfOk, OnOk};
ghost use Rattle.spec_automata.specs.Encoding.{one_of_these};
ghost use Rattle.spec_automata.specs.Positions.{position_count};
ghost use Rattle.lbnf_regex.specs.Owners.{owners_from};
ghost use Rattle.lbnf_regex.specs.Patterns.{bytes_of_pattern};

use crate::expecting::size;
use crate::pattern::Pattern;
use sqlite_items::Items;
use std::alloc::{AllocError, Global};

/// The kind that a position is of.
#[derive(Clone, Copy, Debug)]
pub(crate) struct Owner {
    /// Its place in the order of kinds.
    pub place: usize,
    /// Its first position.
    pub first: u32,
}

/// The owner of so many positions more.
fn push_owner(owners: &mut Items<Owner>, owner: Owner, count: u32) -> Result<(), AllocError>
    ensures { OnOk result (owners.new ≡ owners.old ++ replicate count owner) }
{
    for _position in 0..count {
        owners.push(owner)?;
    }
    Ok(())
}

/// The kind of each position of the kinds, whose positions are numbered in turn.
pub(crate) fn owners(alloc: Global, kinds: &[Pattern]) -> Result<Items<Owner>, AllocError>
    requires { position_count (one_of_these (map bytes_of_pattern kinds.now)) < 2 ^ 32 }
    ensures { IfOk result (λ owners. owners ≡ owners_from (map bytes_of_pattern kinds.now) 0 0) }
{
    let mut owners = Items::new(alloc);
    let mut first = 0;
    for place in 0..kinds.len() {
        let count = size(&kinds[place]);
        push_owner(&mut owners, Owner { place, first }, count)?;
        first += count;
    }
    Ok(owners)
}
