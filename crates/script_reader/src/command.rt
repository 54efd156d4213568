//! What is read: blocks, and the commands behind a grammar.
use spec_script::{Constituent, TokenSpan};

/// What is known of a block that was read.
#[derive(Drop)]
pub enum Block {
    /// Its bytes.
    Kept(Vec<u8>),
    /// How many bytes it had, all of which were passed over.
    TooLong(u32),
}

/// What is asked of the text that is open. Names are slices of the line that asks.
#[derive(Drop)]
pub enum Query<'a> {
    /// Whether the constituent is derived.
    Has(Constituent<&'a [u8]>),
    /// What the constituent's first tree is.
    Tree(Constituent<&'a [u8]>),
    /// Which tokens the span has.
    Tokens(TokenSpan),
}

/// The bytes of a text that an edit replaces: so many from a place on, by so many others.
#[derive(Clone, Copy, Debug, PartialEq, Eq)]
pub struct Splice {
    /// The offset of the first byte that goes.
    pub at: u32,
    /// How many bytes go.
    pub deleted: u32,
    /// How many bytes come.
    pub count: u32,
}

/// What the line of a command tells. A block of as many bytes as it says may still stand behind it.
#[derive(Drop)]
pub enum Head<'a> {
    /// A text of so many bytes is opened; they are the block.
    Open(u32),
    /// The text that is open is edited so; the bytes that come are the block.
    Edit(Splice),
    /// The query is asked of the text that is open. There is no block.
    Ask(Query<'a>),
    /// The script's last line. There is no block.
    End,
}

/// A command that stands behind a grammar, or the script's end.
#[derive(Drop)]
pub enum Command<'a> {
    /// The text of these bytes is opened.
    Open(Block),
    /// Bytes of the text that is open are replaced by others.
    Edit {
        /// The offset of the first byte that goes.
        at: u32,
        /// How many bytes go.
        deleted: u32,
        /// The bytes that come.
        block: Block,
    },
    /// The query is asked of the text that is open.
    Ask(Query<'a>),
    /// The script's last line.
    End,
}

impl Head<'_> {
    /// Whether a block stands behind the line.
    pub fn has_block(&self) -> bool {
        matches!(self, Head::Open(_) | Head::Edit(_))
    }
}
