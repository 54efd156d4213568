//! Which of the parse trees of a symbol over a span is the first, and how a tree is printed. There
//! is no search here.
#![tactic(auto)]

mod laws;

pub use laws::{
    a_derived_span_has_a_first_tree, a_first_tree_is_a_parse_tree, derived_or_not,
    ends_are_least_in_turn, first_trees_are_least, one_first_tree,
};
