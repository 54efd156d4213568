//! Grammars as they are written, parse trees and derivation. There is no chart here.
#![tactic(auto)]

mod laws;
mod rule;

pub use laws::{
    a_category_derives_by_its_rules, a_kind_derives_its_tokens, chains_are_short,
    items_derive_in_turn, no_stray_is_derived, nullable_everywhere, one_rank, spans_lie_within,
    steps_lower_ranks,
};
pub use rule::{Label, Rule, Symbol};
