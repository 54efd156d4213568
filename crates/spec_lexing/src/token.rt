//! Tokens.

/// A token: its kind's number, or None for a stray one, and its bytes `first..end`.
#[derive(Clone, Copy, Debug, PartialEq, Eq)]
pub struct Token {
    pub kind: Option<u16>,
    pub first: u32,
    pub end: u32,
}
