//! Charts: for each span of a text's tokens, the symbols that derive it (Valiant 1975).
#![tactic(auto)]

mod chart;
mod filling;
mod laws;
mod rows;
mod spans;
mod threads;

pub use chart::Chart;
pub use laws::{charts_agree, entries_tell_derivation};
pub use threads::charts_cross_threads;
