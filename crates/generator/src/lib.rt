//! What a generated run is made of: a grammar, and what a seed draws for it, a text of statements
//! and edits of that text. Nothing is run here.
#![tactic(auto)]

mod drawing;
mod editing;
mod grammar;
mod laws;
#[cfg(test)]
mod tests;
mod writing;

pub use drawing::drawn;
pub use editing::{EDITS, Edit, MAX_STATEMENTS, Span, edit_of, span_of, statement_behind};
pub use grammar::{grammar_file, program_name, statement_name};
pub use laws::{
    edits_replace_signs, numbers_are_published, statements_have_ten_bytes, text_of_zero,
};
pub use writing::{statement_count, text_of};
