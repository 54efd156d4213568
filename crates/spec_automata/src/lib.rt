//! Expressions over bytes, their positions, and the states of an automaton for all kinds.
#![tactic(auto)]

mod laws;

pub use laws::{bytes_match_the_same, comments_are_open_or_closed};
