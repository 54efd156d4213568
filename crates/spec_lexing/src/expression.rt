//! Token expressions. Sequences and alternatives are lists, so that an expression is no deeper than
//! its brackets and signs.
use spec_text::Name;
use sqlite_items::{Boxed, Items};

/// A class of scalars. The first four have ASCII scalars alone.
#[derive(Clone, Copy, Debug, PartialEq, Eq)]
pub enum Class {
    Digit,
    Letter,
    Upper,
    Lower,
    AnyChar,
}

/// A token expression. `specs/Expressions.antt` says what each form stands for.
#[derive(Debug, Drop)]
pub enum Expr {
    /// The empty text.
    Eps,
    /// One scalar of the class.
    Class(Class),
    /// This scalar.
    Scalar(char),
    /// One of the scalars of the name.
    AnyOf(Name),
    /// The name itself.
    Word(Name),
    /// The parts in turn.
    Seq(Items<Expr>),
    /// One of the parts.
    Alt(Items<Expr>),
    /// A scalar that the left side matches and the right side does not.
    Minus(Boxed<Expr>, Boxed<Expr>),
    /// None or more in turn.
    Star(Boxed<Expr>),
    /// One or more in turn.
    Plus(Boxed<Expr>),
    /// None or one.
    Opt(Boxed<Expr>),
}
