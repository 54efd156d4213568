//! What a state accepts.

/// What a state of an automaton accepts, or what a lexer finds at a place of a text.
#[derive(Clone, Copy, Debug, PartialEq, Eq)]
pub enum Kind {
    /// A white byte.
    White,
    /// A line comment or a block comment.
    Comment,
    /// A kind of the grammar, by its number.
    Symbol(u16),
    /// One scalar that no kind matches. No state accepts it.
    Stray,
}
