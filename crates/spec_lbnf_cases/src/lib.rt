//! Small grammar files and definitions: what they spell, what they stand for and what is wrong with
//! them.
#![tactic(auto)]

mod laws;

pub use laws::{small_checks, small_expansions, small_readings, small_scans};
