//! Reading the parts of a script from a source: a line is told by its bytes, and a block by the
//! length that its line says. Nothing is known here of what a grammar or a text means.
#![tactic(auto)]

mod command;
mod forms;
mod reading;
mod stop;
#[cfg(test)]
mod tests;

pub use command::{Block, Command, Head, Query, Splice};
pub use reading::{read_command, read_grammar, read_head, read_header};
pub use stop::Stop;
