//! The tokens of a grammar file.
use spec_text::Name;

/// A sign of the notation.
#[derive(Clone, Copy, Debug, PartialEq, Eq)]
pub enum Sign {
    /// `.`
    Dot,
    /// `;`
    Semicolon,
    /// `::=`
    Gives,
    /// `:`
    Colon,
    /// `[`
    OpenBracket,
    /// `]`
    CloseBracket,
    /// `(`
    OpenParen,
    /// `)`
    CloseParen,
    /// `{`
    OpenBrace,
    /// `}`
    CloseBrace,
    /// `,`
    Comma,
    /// `|`
    Bar,
    /// `*`
    Star,
    /// `+`
    Plus,
    /// `?`
    Question,
    /// `-`
    Minus,
    /// `_`
    Underscore,
}

/// A token of a grammar file.
#[derive(Debug, Drop)]
pub enum FileToken {
    /// A letter, and letters, digits, `_` and `'` behind it: at most 64 bytes.
    Identifier(Name),
    /// One to four digits, as the number that they write.
    Number(u16),
    /// What a string stands for, without its quotes and with its escapes resolved.
    Text(Name),
    /// What a character stands for.
    Character(char),
    /// A sign.
    Sign(Sign),
}

/// A token and the offset of its first byte.
#[derive(Debug, Drop)]
pub struct PlacedToken {
    pub token: FileToken,
    pub offset: u32,
}
