//! What the kinds of a lexer match, longest match, and the tokens of a whole text.
#![tactic(auto)]

mod copying;
mod expression;
mod kind_def;
mod laws;
mod token;

pub use expression::{Class, Expr};
pub use kind_def::KindDef;
pub use laws::{
    TokenKind, matches_cover, one_longest_match, one_token_list, predefined_kinds_stand,
    some_token_list,
};
pub use token::Token;
