//! Texts with their tokens, each by longest match from where the last one ended.
#![tactic(auto)]

mod edit;
mod fault;
mod fronts;
mod laws;
mod lexing;
mod limits;
mod text;
mod threads;
mod token_edit;

pub use fault::EditFault;
pub use laws::{edits_are_least, edits_keep_utf8, one_trimmed_edit};
pub use limits::MAX_BYTES;
pub use text::Text;
pub use threads::texts_cross_threads;
pub use token_edit::TokenEdit;
