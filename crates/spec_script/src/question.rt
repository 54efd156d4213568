//! What a question names.

/// The constituent that a question names, with the name of its category or its kind of token as it
/// is at hand: definitions have it as a list of bytes, code as a slice of the line.
#[derive(Drop)]
pub enum Constituent<N> {
    /// The grammar's entry over the whole text.
    EntryWhole,
    /// What has the name, over the whole text.
    NamedWhole(N),
    /// What has the name, over the tokens `first..end`.
    NamedSpan {
        /// The name of a category or of a kind of token.
        name: N,
        /// The place of the first token.
        first: u32,
        /// The place behind the last token.
        end: u32,
    },
}

/// The tokens that a question names.
#[derive(Clone, Copy, Debug, PartialEq, Eq)]
pub enum TokenSpan {
    /// All tokens of the text.
    Whole,
    /// The tokens `first..end`.
    Span {
        /// The place of the first token.
        first: u32,
        /// The place behind the last token.
        end: u32,
    },
}
