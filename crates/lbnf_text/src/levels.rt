//! What is read of a token expression inside one open bracket: the level behind each sign.
ghost use Rattle.std.specs.Prelude.{◌≡◌, IfOk};
ghost use Rattle.spec_lexing.specs.declared.expression.Expr.TheVariants.{Seq, Alt};
ghost use Rattle.spec_lbnf.specs.TokenExpressions.{alone_or, suffix_expr};
ghost use Rattle.lbnf_readers.specs.ExpressionReading.{empty_level, less_than, level_expr};
ghost use Rattle.lbnf_readers.specs.ExpressionReading.{with_factor, with_bar, with_minus};
ghost use Rattle.lbnf_readers.specs.ExpressionReading.{bar_step, minus_step, suffix_step};
ghost use Rattle.lbnf_text.specs.Expressions.{StepsTo, IsAlone, suffix_of, operator_step};

use crate::parser::Stop;
use lbnf_readers::Level;
use spec_lexing::Expr;
use sqlite_items::{Boxed, Items};
use std::alloc::{AllocError, Global};

/// The most postfix signs in a row.
const MAX_SIGNS: u8 = 8;

/// The most minus signs in a row at one level.
const MAX_MINUS_SIGNS: u8 = 8;

/// A sign behind a factor.
#[derive(Clone, Copy, Debug, PartialEq, Eq)]
pub(crate) enum Suffix {
    Star,
    Plus,
    Question,
}

/// A sign that something stands on the left of.
#[derive(Clone, Copy, Debug, PartialEq, Eq)]
pub(crate) enum Operator {
    Bar,
    Minus,
    Behind(Suffix),
}

impl Suffix {
    /// The expression with the sign behind it.
    fn on(self, part: Boxed<Expr>) -> Expr
        ensures { result ≡ suffix_expr (suffix_of self) part }
    {
        match self {
            Suffix::Star => Expr::Star(part),
            Suffix::Plus => Expr::Plus(part),
            Suffix::Question => Expr::Opt(part),
        }
    }
}

/// A level at which nothing is read.
pub(crate) fn empty_level(alloc: Global) -> Level
    ensures { result ≡ empty_level }
{
    Level {
        alternatives: Items::new(alloc),
        left: None,
        minus_signs: 0,
        factors: Items::new(alloc),
        signs: 0,
    }
}

/// The only part, or else the parts again.
fn alone(mut parts: Items<Expr>) -> Result<Expr, Items<Expr>>
    ensures { IsAlone parts result }
{
    if parts.len() != 1 {
        return Err(parts);
    }
    match parts.pop() {
        Some(only) => Ok(only),
        None => Err(parts),
    }
}

fn sequence(factors: Items<Expr>) -> Expr
    ensures { result ≡ alone_or Seq factors }
{
    match alone(factors) {
        Ok(only) => only,
        Err(factors) => Expr::Seq(factors),
    }
}

fn alternatives(sides: Items<Expr>) -> Expr
    ensures { result ≡ alone_or Alt sides }
{
    match alone(sides) {
        Ok(only) => only,
        Err(sides) => Expr::Alt(sides),
    }
}

/// The sequence, taken away from what is on the left of its minus sign, if there is one.
fn side(alloc: Global, left: Option<Expr>, factors: Items<Expr>) -> Result<Expr, AllocError>
    ensures { IfOk result (λ side. side ≡ less_than left (alone_or Seq factors)) }
{
    let part = sequence(factors);
    match left {
        None => Ok(part),
        Some(left) => {
            let left = Boxed::new(alloc, left)?;
            let right = Boxed::new(alloc, part)?;
            Ok(Expr::Minus(left, right))
        }
    }
}

/// The level with a factor more.
pub(crate) fn with_factor(level: Level, factor: Expr) -> Result<Level, AllocError>
    ensures { IfOk result (λ next. next ≡ with_factor level factor) }
{
    let Level {
        alternatives,
        left,
        minus_signs,
        mut factors,
        signs: _,
    } = level;
    factors.push(factor)?;
    Ok(Level {
        alternatives,
        left,
        minus_signs,
        factors,
        signs: 0,
    })
}

fn with_bar(alloc: Global, level: Level) -> Result<Level, AllocError>
    ensures { IfOk result (λ next. next ≡ with_bar level) }
{
    let Level {
        mut alternatives,
        left,
        minus_signs: _,
        factors,
        signs: _,
    } = level;
    alternatives.push(side(alloc, left, factors)?)?;
    Ok(Level {
        alternatives,
        left: None,
        minus_signs: 0,
        factors: Items::new(alloc),
        signs: 0,
    })
}

/// The expression of all that is read at the level.
pub(crate) fn level_expr(alloc: Global, level: Level) -> Result<Expr, AllocError>
    ensures { IfOk result (λ expr. expr ≡ level_expr level) }
{
    let Level {
        alternatives: mut sides,
        left,
        minus_signs: _,
        factors,
        signs: _,
    } = level;
    sides.push(side(alloc, left, factors)?)?;
    Ok(alternatives(sides))
}

/// A bar, where no operand must come.
fn bar(alloc: Global, level: Level) -> Result<Level, Stop>
    ensures { StepsTo (bar_step level) result }
{
    if level.factors.is_empty() {
        return Err(Stop::Stuck);
    }
    let next = with_bar(alloc, level)?;
    Ok(next)
}

/// A minus sign, where no operand must come.
fn minus(alloc: Global, level: Level) -> Result<Level, Stop>
    ensures { StepsTo (minus_step level) result }
{
    let Level {
        alternatives,
        left,
        minus_signs,
        factors,
        signs: _,
    } = level;
    if factors.is_empty() {
        return Err(Stop::Stuck);
    }
    if minus_signs >= MAX_MINUS_SIGNS {
        return Err(Stop::Stuck);
    }
    let left = side(alloc, left, factors)?;
    Ok(Level {
        alternatives,
        left: Some(left),
        minus_signs: minus_signs + 1,
        factors: Items::new(alloc),
        signs: 0,
    })
}

/// A sign behind the last factor.
fn suffixed(alloc: Global, level: Level, suffix: Suffix) -> Result<Level, Stop>
    ensures { StepsTo (suffix_step level (suffix_of suffix)) result }
{
    let Level {
        alternatives,
        left,
        minus_signs,
        mut factors,
        signs,
    } = level;
    let factor = factors.pop().ok_or(Stop::Stuck)?;
    if signs >= MAX_SIGNS {
        return Err(Stop::Stuck);
    }
    let factor = Boxed::new(alloc, factor)?;
    factors.push(suffix.on(factor))?;
    Ok(Level {
        alternatives,
        left,
        minus_signs,
        factors,
        signs: signs + 1,
    })
}

/// The level behind an operator.
pub(crate) fn operate(alloc: Global, level: Level, operator: Operator) -> Result<Level, Stop>
    ensures { StepsTo (operator_step level operator) result }
{
    match operator {
        Operator::Bar => bar(alloc, level),
        Operator::Minus => minus(alloc, level),
        Operator::Behind(suffix) => suffixed(alloc, level, suffix),
    }
}
