//! Reading a grammar file: from its bytes to its definitions.
#![tactic(auto)]

mod categories;
mod definition;
mod definitions;
mod defs;
mod differences;
mod expressions;
mod faults;
mod items;
mod labels;
mod levels;
mod parser;
mod reading;
mod scanner;
mod texts;

pub use defs::Defs;
pub use reading::read_defs;
pub use spec_grammar::Label;
pub use spec_lbnf::{CatName, Def, RawItem, RawRule, TextFault};
pub use spec_text::{MAX_FILE, Name};
pub use texts::{word_item, words};
