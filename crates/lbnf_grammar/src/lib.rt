//! From the definitions of a grammar file to a numbered grammar.
#![tactic(auto)]

mod checking;
mod counting;
mod entry;
mod expanded_def;
mod expanding;
mod labels;
mod lexicon;
mod macros;
mod names;
mod naming;
mod numbering;
mod predefined;
mod tables;
mod texts;

pub use expanding::expand;
pub use numbered_grammar::{Grammar, KindDef, Rule, Symbol};
pub use spec_lbnf::GrammarFault;
