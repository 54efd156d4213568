//! The kinds of token that a grammar has.
use crate::expression::Expr;
use spec_text::Name;

/// A kind of token: a word of the grammar, which matches itself, or a name with an expression.
#[derive(Debug, Drop)]
pub enum KindDef {
    Word(Name),
    Token { name: Name, expr: Expr },
}
