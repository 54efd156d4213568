//! What replies to a command.
use first_tree::Tree;

/// What replies to a command: a line, or a tree, which is printed only where it is written.
#[derive(Drop)]
pub(crate) enum Reply {
    /// The line with its LF.
    Line(String),
    /// The tree whose printed text is the line.
    Tree(Tree),
}
