//! The first tree of a symbol over a span of a text, by the chart of the text, and the printed text
//! of a tree.
#![tactic(auto)]

mod answer;
mod choosing;
mod derivation;
mod open_node;
mod printing;
mod rest;
mod search;
mod wanted;
mod writing;

pub use answer::First;
pub use printing::{print, print_gathered};
pub use search::first;
pub use tree_nodes::{Tree, TreeNode};
