//! One node of a tree.

/// A node of a tree: a leaf, which is one token, or a rule over the subtrees of its items.
#[derive(Clone, Copy, Debug, PartialEq, Eq)]
pub struct TreeNode {
    /// The rule's number; `None` for a leaf.
    pub rule: Option<u16>,
    /// The number of the leaf's kind; 0 in a rule's node.
    pub kind: u16,
    /// The place of the first token below the node.
    pub first: u32,
    /// The place behind the last one.
    pub end: u32,
    /// How many subtrees the node has; 0 for a leaf.
    pub children: u16,
}
