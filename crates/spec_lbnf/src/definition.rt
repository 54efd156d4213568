//! The definitions of a grammar file, as they are written.
use spec_grammar::Label;
use spec_lexing::Expr;
use spec_text::Name;
use sqlite_items::Items;

/// A category: a name inside so many list brackets.
#[derive(Debug, Drop)]
pub struct CatName {
    pub name: Name,
    pub depth: u8,
}

/// An item of a right side: a category, or a word of one byte or more.
#[derive(Debug, Drop)]
pub enum RawItem {
    Cat(CatName),
    Word(Name),
}

/// A rule as it is written: `label . cat ::= items`.
#[derive(Debug, Drop)]
pub struct RawRule {
    pub label: Label,
    pub cat: CatName,
    pub items: Items<RawItem>,
}

/// A definition of a grammar file.
#[derive(Debug, Drop)]
pub enum Def {
    /// `Label . Cat ::= Items`.
    Rule(RawRule),
    /// `internal Label . Cat ::= Items`: a rule for trees alone, which no text is read by.
    Internal(RawRule),
    /// `terminator Cat "word"`: lists of the category, with the word behind each element; with
    /// `nonempty` they have one element or more.
    Terminator {
        nonempty: bool,
        cat: CatName,
        word: Name,
    },
    /// `separator Cat "word"`: lists of the category, with the word between two elements; with
    /// `nonempty` they have one element or more.
    Separator {
        nonempty: bool,
        cat: CatName,
        word: Name,
    },
    /// `coercions Name levels`: the levels of precedence above the category.
    Coercions {
        name: Name,
        levels: u16,
    },
    /// `entrypoints Cat, Cat`: the categories that a text may be asked for, one or more.
    Entry(Items<CatName>),
    /// `token Name Expr` or `position token Name Expr`: a kind of token by its name.
    Token {
        name: Name,
        expr: Expr,
    },
    /// `comment "w"`: comments from the word to the end of the line.
    LineComment(Name),
    /// `comment "w" "v"`: comments from the first word to the next second word.
    BlockComment(Name, Name),
}
