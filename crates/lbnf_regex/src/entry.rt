//! Entries of an automaton's table.
ghost use Rattle.std.specs.Prelude.{◌≡◌, ◌<◌, IfSome};

use std::marker::Model;

/// The state that follows, if there is one, in two bytes. It is never the start.
#[derive(Debug, Drop)]
pub(crate) struct Entry {
    /// The number of the state, and 0 where none follows.
    number: u16,
}

impl Model for Entry {
    ghost use Rattle.std.specs.Prelude.{Option, ℕ};
    ghost use Rattle.lbnf_regex.specs.States.{entry_of};

    ghost Value = { Option ℕ };

    ghost view = { λ entry. entry_of entry.number };
}

impl Entry {
    /// The entry of the state, or of none.
    pub(crate) fn of(state: Option<u16>) -> Entry
        requires { IfSome state (λ number. 0 < number) }
        ensures { result ≡ state }
    {
        match state {
            Some(number) => Entry { number },
            None => Entry { number: 0 },
        }
    }

    /// The state that follows. None where none does.
    pub(crate) fn state(&self) -> Option<u16>
        ensures { result ≡ self.now }
    {
        if self.number == 0 {
            None
        } else {
            Some(self.number)
        }
    }
}
