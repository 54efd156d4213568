//! An automaton that recognises all kinds of a lexer at once.
#![tactic(auto)]

mod accepting;
mod build;
mod byte_set;
mod comment;
mod encoding;
mod entry;
mod expecting;
mod kind;
mod kinds;
mod lex_fault;
mod literal;
mod machine;
mod marked;
mod next_byte;
mod owner;
mod pattern;
mod position_set;
mod state_list;
mod states;
mod targets;

pub use build::automaton;
pub use kind::Kind;
pub use lex_fault::LexFault;
pub use machine::Automaton;

#[cfg(test)]
mod tests;
