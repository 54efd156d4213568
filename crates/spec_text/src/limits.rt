//! The limits, one name for each. Clauses and definitions cite them, so that a limit changes here.

/// The most bytes of a grammar file.
pub const MAX_FILE: usize = 65_536;

/// The most bytes of an identifier of a grammar file.
pub const MAX_IDENTIFIER: usize = 64;

/// The most bytes of a category's text, its brackets included.
pub const MAX_CATEGORY: usize = 128;

/// The most rules of a grammar.
pub const MAX_RULES: usize = 1_024;

/// The most symbols of a grammar: categories, kinds, and items of all rules.
pub const MAX_SYMBOLS: u32 = 2_048;

/// The most states of an automaton, its start included.
pub const MAX_STATES: usize = 1_023;

/// The most bytes of a script's line, without its LF.
pub const MAX_LINE: usize = 256;

/// The most digits of a command's number.
pub const MAX_DIGITS: usize = 9;

/// Above the offset of each command's line.
pub const MAX_OFFSET: u64 = 1 << 48;

/// The most bytes of a text.
pub const MAX_TEXT: usize = 4_096;

/// The most tokens of a text.
pub const MAX_TOKENS: usize = 16_384;

/// The most nodes of a tree.
pub const MAX_NODES: u32 = 4_194_304;
