//! Automata as their callers see them.
ghost use Rattle.std.specs.Prelude.{◌≡◌, ◌+◌, ◌<◌, ◌^◌, None, Some, IfSome, length, slice_index_or};
ghost use Rattle.std.specs.Option.{option_map};
ghost use Rattle.lbnf_regex.specs.Automata.{IsWholeMachine, kind_at, machine_of, state_behind};

use crate::entry::Entry;
use crate::kind::Kind;
use sqlite_items::Items;
use std::marker::Model;

/// An automaton that recognises kinds, each by its place in their order. Its start is state 0.
#[derive(Debug, Drop)]
pub struct Automaton {
    rows: Items<Items<Entry>>,
    places: Items<Option<usize>>,
    comments: usize,
}

impl Model for Automaton {
    ghost use Rattle.std.specs.Coded.{codes};
    ghost use Rattle.lbnf_regex.specs.Automata.{IsWholeMachine, Machine, machine_of};

    ghost Value = { Machine };

    ghost coded = { Prim.hlevel codes };

    ghost view = { λ a. machine_of a.rows a.places a.comments };

    ghost invariant = { λ a. IsWholeMachine (machine_of a.rows a.places a.comments) };
}

impl Automaton {
    pub(crate) fn of(
        rows: Items<Items<Entry>>,
        places: Items<Option<usize>>,
        comments: usize,
    ) -> Automaton
        requires { IsWholeMachine (machine_of rows places comments) }
        ensures { result ≡ machine_of rows places comments }
    {
        Automaton {
            rows,
            places,
            comments,
        }
    }

    /// The state before any byte is read. It takes no memory.
    pub fn start(&self) -> u16
        ensures state { result ≡ 0 }
        ensures within { result < length self.now.rows }
    {
        let _rows = &self.rows;
        0
    }

    /// How many states there are, the start included. It takes no memory.
    pub fn state_count(&self) -> u16
        ensures { result ≡ length self.now.rows }
    {
        self.rows.len() as u16
    }

    /// The state behind the byte. None where no spelling goes on by it. It takes no memory.
    pub fn step(&self, state: u16, byte: u8) -> Option<u16>
        requires { state < length self.now.rows }
        ensures next { result ≡ state_behind self.now.rows (Some state) byte }
        ensures within { IfSome result (λ next. next < length self.now.rows) }
    {
        self.rows.as_slice()[state as usize].as_slice()[byte as usize].state()
    }

    /// The least kind that matches what leads to the state. None where no kind does, and never
    /// Stray. It takes no memory.
    pub fn accepts(&self, state: u16) -> Option<Kind>
        requires { state < length self.now.rows }
        ensures { result ≡ option_map (kind_at self.now.comments)
            (slice_index_or self.now.places state None) }
    {
        match self.places.as_slice()[state as usize] {
            Some(place) => Some(kind_in_order(place, self.comments)),
            None => None,
        }
    }
}

/// The kind at the place in the order of kinds, of which so many are comments.
fn kind_in_order(place: usize, comments: usize) -> Kind
    requires { place < comments + 1 + 2 ^ 16 }
    ensures { result ≡ kind_at comments place }
{
    if place == 0 {
        Kind::White
    } else if place <= comments {
        Kind::Comment
    } else {
        Kind::Symbol((place - comments - 1) as u16)
    }
}
