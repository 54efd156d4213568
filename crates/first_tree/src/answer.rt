//! What a search for a first tree answers.
use tree_nodes::Tree;

/// The answer on a symbol and a span.
#[derive(Drop)]
pub enum First {
    /// The first tree of the symbol over the span.
    Tree(Tree),
    /// The symbol does not derive the span.
    Nothing,
    /// The first tree has more than `MAX_NODES` nodes.
    Large,
}
