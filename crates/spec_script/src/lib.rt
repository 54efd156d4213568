//! Scripts: the commands that an input spells, and where it ends or breaks. There is no other code
//! here than the types of what a question names, a limit, and laws.
#![tactic(auto)]

mod laws;
mod limits;
mod question;

pub use laws::one_script;
pub use limits::MAX_BLOCK;
pub use question::{Constituent, TokenSpan};
