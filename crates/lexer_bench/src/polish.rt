//! Token expressions in reverse Polish notation, with white space between its words: `eps`,
//! `digit`, `letter`, `upper`, `lower`, `char`, `'c` (the scalar c), `[w` (one of the scalars of w)
//! and `{w` (the word w) are expressions. `*`, `+` and `?` stand behind one, `-` behind two, and
//! `.N` and `|N` behind N, which are in turn or of which each may be.
use crate::parts::name;
use spec_lexing::{Class, Expr};
use sqlite_items::{Boxed, Items};
use std::alloc::Global;

/// The last expression of the stack, which is taken off it.
fn last(alloc: Global, stack: &mut Vec<Expr>) -> Option<Boxed<Expr>> {
    let expr = stack.pop()?;
    Boxed::new(alloc, expr).ok()
}

/// The last expressions of the stack, as many as the text says, which are taken off it.
fn last_of(count: &str, stack: &mut Vec<Expr>) -> Option<Items<Expr>> {
    let count = count.parse::<usize>().ok()?;
    let kept = stack.len().checked_sub(count)?;
    let parts = stack.split_off(kept).ok()?;
    Some(Items::from_vec(parts))
}

/// The expression of a word that begins with a sign.
fn signed(alloc: Global, word: &str, stack: &mut Vec<Expr>) -> Option<Expr> {
    if let Some(scalar) = word.strip_prefix("'") {
        return Some(Expr::Scalar(scalar.chars().next()?));
    }
    if let Some(scalars) = word.strip_prefix("[") {
        return Some(Expr::AnyOf(name(alloc, scalars)?));
    }
    if let Some(bytes) = word.strip_prefix("{") {
        return Some(Expr::Word(name(alloc, bytes)?));
    }
    if let Some(count) = word.strip_prefix(".") {
        return Some(Expr::Seq(last_of(count, stack)?));
    }
    let count = word.strip_prefix("|")?;
    Some(Expr::Alt(last_of(count, stack)?))
}

/// The expression of the word, made of those on the stack where it is of some.
fn form(alloc: Global, word: &str, stack: &mut Vec<Expr>) -> Option<Expr> {
    match word {
        "eps" => Some(Expr::Eps),
        "digit" => Some(Expr::Class(Class::Digit)),
        "letter" => Some(Expr::Class(Class::Letter)),
        "upper" => Some(Expr::Class(Class::Upper)),
        "lower" => Some(Expr::Class(Class::Lower)),
        "char" => Some(Expr::Class(Class::AnyChar)),
        "*" => Some(Expr::Star(last(alloc, stack)?)),
        "+" => Some(Expr::Plus(last(alloc, stack)?)),
        "?" => Some(Expr::Opt(last(alloc, stack)?)),
        "-" => {
            let right = last(alloc, stack)?;
            let left = last(alloc, stack)?;
            Some(Expr::Minus(left, right))
        }
        _ => signed(alloc, word, stack),
    }
}

/// The expression that the words spell. None where they spell none, or memory ran out.
pub fn expression(alloc: Global, words: &str) -> Option<Expr> {
    let mut stack = Vec::new(alloc);
    for word in words.split_whitespace() {
        let expr = form(alloc, word, &mut stack)?;
        stack.push(expr).ok()?;
    }
    let expr = stack.pop()?;
    if stack.is_empty() { Some(expr) } else { None }
}
