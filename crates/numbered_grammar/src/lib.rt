//! Grammars with numbers in place of names: which categories are nullable, which reach themselves,
//! and how long the chains of steps from a category are. Nothing here knows a notation.
#![tactic(auto)]

mod cycle_check;
mod fault;
mod grammar;
mod lexicon;
mod making;
mod nullable;
mod parts;
mod places;
mod stepping;
mod threads;

pub use fault::CycleFault;
pub use grammar::Grammar;
pub use lexicon::LexiconParts;
pub use parts::GrammarParts;
pub use spec_grammar::{Label, Rule, Symbol};
pub use spec_lexing::KindDef;
pub use spec_text::Name;
pub use sqlite_items::Items;
pub use threads::grammars_cross_threads;

#[cfg(test)]
mod tests;
