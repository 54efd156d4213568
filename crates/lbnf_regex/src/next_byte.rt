//! How the next byte of a text may be read.
use sqlite_items::Items;

/// One way to read the next byte.
#[derive(Debug, Drop)]
pub(crate) enum NextByte {
    /// As one of the set, which leads to its position.
    InSet {
        position: u32,
        set: Items<u8>,
    },
    /// Inside a comment, with so much of the closing text read before it. The positions of the
    /// closing text are numbered from the first on.
    InComment {
        first: u32,
        closing: Items<u8>,
        size: usize,
    },
}
