//! A shared tree, a maker of its nodes that counts them, and cases of the calls on shapes.
#![tactic(auto)]

mod counting;
mod shared_tree;
#[cfg(test)]
mod tests;

pub use counting::{NodeCounter, edited, tree_of};
pub use shared_tree::SharedTree;
