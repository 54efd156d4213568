//! The limit of a text's block.

/// The most bytes of a text, and of a block of one that is kept.
pub const MAX_BLOCK: usize = 1_048_576;
