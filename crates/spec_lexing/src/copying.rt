//! Copies of token expressions.
ghost use Rattle.std.specs.Prelude.{◌≡◌, IfOk};

use crate::expression::Expr;
use sqlite_items::{Boxed, Items};
use std::alloc::{AllocError, Global};

/// Copies of the expressions.
#[cycle(copy_of)]
fn copies_of(alloc: Global, exprs: &[Expr]) -> Result<Items<Expr>, AllocError>
    ensures { IfOk result (λ copies. copies ≡ exprs.now) }
{
    let mut copies = Items::new(alloc);
    for expr in exprs {
        copies.push(copy_of(alloc, expr)?)?;
    }
    Ok(copies)
}

/// A copy of the expression.
#[cycle(copy_of)]
fn copy_of(alloc: Global, expr: &Expr) -> Result<Expr, AllocError>
    ensures { IfOk result (λ copy. copy ≡ expr.now) }
{
    match expr {
        Expr::Eps => Ok(Expr::Eps),
        Expr::Class(class) => Ok(Expr::Class(*class)),
        Expr::Scalar(scalar) => Ok(Expr::Scalar(*scalar)),
        Expr::AnyOf(name) => Ok(Expr::AnyOf(name.copy(alloc)?)),
        Expr::Word(name) => Ok(Expr::Word(name.copy(alloc)?)),
        Expr::Seq(parts) => Ok(Expr::Seq(copies_of(alloc, parts.as_slice())?)),
        Expr::Alt(parts) => Ok(Expr::Alt(copies_of(alloc, parts.as_slice())?)),
        Expr::Minus(left, right) => {
            let left = copy_of(alloc, left.get())?;
            let right = copy_of(alloc, right.get())?;
            Ok(Expr::Minus(Boxed::new(alloc, left)?, Boxed::new(alloc, right)?))
        }
        Expr::Star(part) => {
            let part = copy_of(alloc, part.get())?;
            Ok(Expr::Star(Boxed::new(alloc, part)?))
        }
        Expr::Plus(part) => {
            let part = copy_of(alloc, part.get())?;
            Ok(Expr::Plus(Boxed::new(alloc, part)?))
        }
        Expr::Opt(part) => {
            let part = copy_of(alloc, part.get())?;
            Ok(Expr::Opt(Boxed::new(alloc, part)?))
        }
    }
}

impl Expr {
    /// The same expression, with its parts and names copied. It takes an allocation for each part
    /// and each name, and calls itself as deep as the expression is.
    pub fn copy(&self, alloc: Global) -> Result<Expr, AllocError>
        ensures { IfOk result (λ copy. copy ≡ self.now) }
    {
        copy_of(alloc, self)
    }
}
