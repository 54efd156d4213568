//! Bytes, names, printed text and limits: the words on texts that every other definition uses.
#![tactic(auto)]

mod bytes;
mod laws;
mod limits;
mod name;

pub use bytes::is_white;
pub use laws::{scalars_have_their_length, small_texts_are_printed};
pub use limits::{
    MAX_CATEGORY, MAX_DIGITS, MAX_FILE, MAX_IDENTIFIER, MAX_LINE, MAX_NODES, MAX_OFFSET, MAX_RULES,
    MAX_STATES, MAX_SYMBOLS, MAX_TEXT, MAX_TOKENS,
};
pub use name::Name;
