//! What keeps a grammar file from being read, and its definitions from being a grammar.
use spec_text::Name;

/// Why a grammar file gives no definitions.
#[derive(Debug, Drop)]
pub enum TextFault {
    /// Memory ran out. It may come at any file of at most 65,536 bytes that is UTF-8.
    Memory,
    /// The file has so many bytes, more than 65,536.
    TooLarge { count: u64 },
    /// The file stops being UTF-8 at this byte, the first of a sequence that is wrong or cut short.
    NotUtf8 { at: u32 },
    /// No token begins at this byte, or the token that begins there cannot go on, or the file ends
    /// there within a definition. Of a category of more than 128 bytes it is the first byte.
    Syntax { at: u32 },
    /// A word of labelled BNF that this profile leaves out, at its first byte.
    Unsupported { word: Name, at: u32 },
    /// The difference whose sign is at this byte, the first in the file, has a left side that is no
    /// class, or a right side that is no class of ASCII characters. All else in the file is right.
    BadDifference { at: u32 },
}

/// Why definitions give no grammar, in the order of the checks. Definitions are numbered from 0.
#[derive(Debug, Drop)]
pub enum GrammarFault {
    /// Memory ran out. It comes only at definitions without a bad label or bad levels that give at
    /// most 1,024 rules, since these two checks take no memory.
    Memory,
    /// The first definition with a bad label or bad levels is a rule, internal or not, labelled
    /// `_`, that has not exactly one item that is no word, or coercions of no level: its number.
    BadCoercion { def: u32 },
    /// The first definition with a bad label or bad levels is a rule, internal or not, with a list
    /// label where it is not for lists or lacks their items, or with another label where it is for
    /// lists, unless that is `_` and the one item is a list: its number.
    BadList { def: u32 },
    /// The definitions give more than 1,024 rules: so many.
    TooManyRules { count: u64 },
    /// The first name, in file order, that a definition repeats: a token definition that of an
    /// earlier one, and a rule, internal or not, or made of a macro or of coercions, that of any
    /// token definition or a predefined name as its category.
    RepeatedToken { name: Name },
    /// The first category, in file order, that is neither a known category, nor a token
    /// definition's name, nor predefined: its text, and the number of the definition that names it.
    UnknownCategory { name: Name, def: u32 },
    /// The category of least number that reaches itself by steps: its text. A category steps to an
    /// item of one of its rules where each other item of that rule derives the empty span.
    Cyclic { name: Name },
}
