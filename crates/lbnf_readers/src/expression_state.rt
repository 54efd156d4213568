//! How far a token expression is read, between two of its tokens.
use spec_lexing::Expr;
use spec_text::Name;
use sqlite_items::Items;

/// What is read of alternatives: of those behind the last open round bracket, or of the outermost.
#[derive(Debug, Drop)]
pub struct Level {
    /// The alternatives that a bar ended.
    pub alternatives: Items<Expr>,
    /// What the minus sign before the sequence is behind.
    pub left: Option<Expr>,
    /// How many minus signs are in a row.
    pub minus_signs: u8,
    /// The factors of the sequence; none where an operand must come.
    pub factors: Items<Expr>,
    /// How many signs are behind the last factor.
    pub signs: u8,
}

/// What is read of an atom of three tokens.
#[derive(Debug, Drop)]
pub enum OpenAtom {
    /// `[`
    Bracket,
    /// `[` and a string
    AnyOf(Name),
    /// `{`
    Brace,
    /// `{` and a string
    Word(Name),
}

/// What is read of a token expression.
#[derive(Debug, Drop)]
pub struct ExpressionState {
    /// The levels around the innermost, the outermost first: one for each open round bracket.
    pub outer: Items<Level>,
    /// The innermost level.
    pub level: Level,
    /// The atom that is not whole yet.
    pub atom: Option<OpenAtom>,
}
