//! The limit of a text's bytes.

/// The most bytes of a text.
pub const MAX_BYTES: usize = 1_048_576;
