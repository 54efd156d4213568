//! The longest front of some bytes that an automaton accepts.
ghost use Rattle.std.specs.Prelude.{◌≡◌, length};
ghost use Rattle.text_store.specs.Lexing.{IsFrontOrNone, front_or};

use lbnf_regex::{Automaton, Kind};

/// A front of some bytes: the least kind that matches it, and how many bytes it has.
#[derive(Clone, Copy)]
pub(crate) struct Front {
    pub(crate) kind: Kind,
    pub(crate) len: usize,
}

/// The front of so many bytes where it is accepted as a kind, else the shorter one.
fn front_or(kind: Option<Kind>, len: usize, shorter: Option<Front>) -> Option<Front>
    ensures { result ≡ front_or kind len shorter }
{
    match kind {
        Some(kind) => Some(Front { kind, len }),
        None => shorter,
    }
}

/// The longest front of one byte or more that the automaton accepts. None where it accepts none.
/// It reads on behind a front that is accepted as long as a kind may go on.
pub(crate) fn longest_front(automaton: &Automaton, bytes: &[u8]) -> Option<Front>
    ensures { IsFrontOrNone automaton.now bytes.now (length bytes.now) result }
{
    let mut best = None;
    let mut state = automaton.start();
    for read in 0..bytes.len() {
        let Some(next) = automaton.step(state, bytes[read]) else {
            return best;
        };
        state = next;
        best = front_or(automaton.accepts(state), read + 1, best);
    }
    best
}
