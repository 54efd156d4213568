//! Small grammars, and what the definitions of `spec_grammar` say of them. Nothing stands on this.
#![tactic(auto)]

mod laws;

pub use laws::{small_cases, small_cycles};
