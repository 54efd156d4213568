//! The run that the program generates for itself: the commands that a seed defines, and the line that
//! sums up their session. Definitions and laws; nothing is run here.
#![tactic(auto)]

mod laws;

pub use laws::{one_generated_line, small_run};
