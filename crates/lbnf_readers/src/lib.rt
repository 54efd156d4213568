//! Readers of grammar files, which take turns: what a file spells is what they read, so each file
//! spells definitions or has a first fault.
#![tactic(auto)]

mod expression_state;
mod file_laws;
mod reading_laws;

pub use expression_state::{ExpressionState, Level, OpenAtom};
pub use file_laws::{one_scan, one_token_or_space, some_scan, tokens_rise};
pub use reading_laws::{defs_or_fault, one_first_fault, one_list_of_defs, spelled_or_faulty};
