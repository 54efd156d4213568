//! The states of an automaton, and the rows of its table.
ghost use Rattle.std.specs.Prelude.{◌≡◌, ◌≢◌, ◌<◌, ◌≤◌, ◌^◌, [], Err, length, map, IfOk};
ghost use Rattle.spec_automata.specs.Encoding.{one_of_these};
ghost use Rattle.spec_automata.specs.Positions.{position_count};
ghost use Rattle.spec_automata.specs.States.{HasManySets};
ghost use Rattle.lbnf_regex.specs.Owners.{owners_from};
ghost use Rattle.lbnf_regex.specs.Patterns.{bytes_of_pattern};
ghost use Rattle.lbnf_regex.specs.States.{AddsStates, AreStates, GetsEntry, GetsNumber, HasNoRoom};
ghost use Rattle.lbnf_regex.specs.States.{IsStateRow, IsTable, state_at};
ghost use Rattle.lbnf_regex.specs.declared.lex_fault.LexFault.TheVariants.{TooManyStates};

use crate::entry::Entry;
use crate::lex_fault::LexFault;
use crate::owner::Owner;
use crate::pattern::Pattern;
use crate::state_list::States;
use crate::targets::targets_from;
use sqlite_items::Items;
use std::alloc::Global;

/// The number of the set, which is put behind the states where it is none of them.
fn number_of(
    alloc: Global,
    set: &[u32],
    states: &mut States,
    most: usize,
) -> Result<usize, LexFault>
    ensures ok { IfOk result (GetsNumber states.old states.new set.now) }
    ensures most { IfOk result (λ number. length states.old ≤ most → length states.new ≤ most) }
    ensures full { result ≡ Err TooManyStates → HasNoRoom states.old set.now most }
{
    match states.place_of(set) {
        Some(place) => Ok(place),
        None => {
            let number = states.len();
            if number == most {
                return Err(LexFault::TooManyStates);
            }
            states.push(Vec::from_slice(alloc, set)?)?;
            Ok(number)
        }
    }
}

/// The entry of the set that follows.
fn entry(
    alloc: Global,
    set: &[u32],
    states: &mut States,
    most: usize,
) -> Result<Option<u16>, LexFault>
    requires few { length states.old ≤ most }
    requires room { most < 2 ^ 16 }
    ensures ok { IfOk result (GetsEntry set.now states.old states.new) }
    ensures most { IfOk result (λ entry. length states.new ≤ most) }
    ensures full { result ≡ Err TooManyStates
        → (set.now ≢ []) × HasNoRoom states.old set.now most }
{
    if set.is_empty() {
        return Ok(None);
    }
    let number = number_of(alloc, set, states, most)?;
    Ok(Some(number as u16))
}

/// Where the bytes lead to from the state of this number, for kinds of these owners.
fn row(
    alloc: Global,
    kinds: &[Pattern],
    owners: &[Owner],
    states: &mut States,
    i: usize,
    most: usize,
) -> Result<Items<Entry>, LexFault>
    requires size { position_count (one_of_these (map bytes_of_pattern kinds.now)) < 2 ^ 32 }
    requires owners { owners.now ≡ owners_from (map bytes_of_pattern kinds.now) 0 0 }
    requires states { AreStates (one_of_these (map bytes_of_pattern kinds.now)) states.old }
    requires few { length states.old ≤ most }
    requires room { most < 2 ^ 16 }
    requires within { i < length states.old }
    ensures grows { IfOk result (λ row. AddsStates states.old states.new) }
    ensures states { IfOk result (λ row.
        AreStates (one_of_these (map bytes_of_pattern kinds.now)) states.new) }
    ensures most { IfOk result (λ row. length states.new ≤ most) }
    ensures row { IfOk result (IsStateRow (one_of_these (map bytes_of_pattern kinds.now)) states.new
        (state_at states.old i) 256) }
    ensures full { result ≡ Err TooManyStates
        → HasManySets (one_of_these (map bytes_of_pattern kinds.now)) most }
{
    let targets = targets_from(alloc, kinds, owners, states.at(i))?;
    let mut row = Items::new(alloc);
    for byte in 0..256u16 {
        let set = targets.of_byte(byte as u8);
        let entry = entry(alloc, set, states, most)?;
        row.push(Entry::of(entry))?;
    }
    Ok(row)
}

/// The states as sets of positions, and for each state and each byte the state that follows.
#[derive(Debug, Drop)]
pub(crate) struct Table {
    pub states: States,
    pub rows: Items<Items<Entry>>,
}

/// The states that texts lead to, at most so many with the start, and their rows, for kinds of these
/// owners.
pub(crate) fn make_table(
    alloc: Global,
    kinds: &[Pattern],
    owners: &[Owner],
    most: usize,
) -> Result<Table, LexFault>
    requires size { position_count (one_of_these (map bytes_of_pattern kinds.now)) < 2 ^ 32 }
    requires owners { owners.now ≡ owners_from (map bytes_of_pattern kinds.now) 0 0 }
    requires some { 0 < most }
    requires room { most < 2 ^ 16 }
    ensures table { IfOk result (λ made.
        IsTable (one_of_these (map bytes_of_pattern kinds.now)) most made.states made.rows) }
    ensures full { result ≡ Err TooManyStates
        → HasManySets (one_of_these (map bytes_of_pattern kinds.now)) most }
{
    let mut states = States::new(alloc);
    states.push(Vec::new(alloc))?;
    let mut rows = Items::new(alloc);
    'states: while rows.len() < states.len() {
        let row = row(alloc, kinds, owners, &mut states, rows.len(), most)?;
        rows.push(row)?;
    }
    Ok(Table { states, rows })
}
