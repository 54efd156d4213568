//! Labelled BNF: what a grammar file spells, and the rules that its definitions stand for.
#![tactic(auto)]

mod definition;
mod fault;
mod laws;
mod token;

pub use definition::{CatName, Def, RawItem, RawRule};
pub use fault::{GrammarFault, TextFault};
pub use laws::{
    acyclic_or_cyclic, defs_within_limits, distinct_names, fit_or_unfit, never_memory,
    numbers_name_back, one_symbol_each, own_entry, own_symbols, proper_defs, sound_kinds,
    two_bytes_for_each,
};
pub use token::{FileToken, PlacedToken, Sign};
