//! Small trees, and what the definitions of `spec_trees` say of them. Nothing stands on this.
#![tactic(auto)]

mod laws;

pub use laws::{small_first_trees, small_tree_texts};
