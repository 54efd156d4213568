//! Trees, kept as their nodes in preorder and seen as the parse trees of the definitions.
#![tactic(auto)]

mod laws;
mod node;
mod tree;

pub use laws::nodes_are_of_one_tree;
pub use node::TreeNode;
pub use tree::Tree;
