//! The longest match.
use lbnf_regex::{Automaton, Kind};

/// The longest match at the beginning of the text, one byte or more: its length, and the least kind
/// that matches so much. None where no kind matches.
pub fn longest(automaton: &Automaton, text: &[u8]) -> Option<(usize, Kind)> {
    let mut state = automaton.start();
    let mut best = None;
    for i in 0..text.len() {
        let Some(next) = automaton.step(state, text[i]) else {
            return best;
        };
        state = next;
        if let Some(kind) = automaton.accepts(state) {
            best = Some((i + 1, kind));
        }
    }
    best
}
