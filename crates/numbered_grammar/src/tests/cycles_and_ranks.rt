//! Cyclic categories and ranks of small grammars, whose rules are built by hand.
use super::small_grammars::{A, B, C, D, EMPTY, Sides, WORD, grammar_of, is_grammar, small_parts};
use crate::cycle_check::{CycleCheck, check_cycles};
use crate::nullable::nullable_flags;
use crate::*;
use std::alloc::{AllocError, Global};
use std::test::*;

/// A grammar as it is written, with "w" for the word; its rules; and the first cyclic one of its
/// categories A, B, C and D.
type Cycle = (&'static str, Sides, Option<u16>);

const CYCLES: &[Cycle] = &[
    ("", &[], None),
    ("A ::= A;", &[(0, &[A])], Some(0)),
    ("A ::= A \"w\";", &[(0, &[A, WORD])], None),
    (
        "A ::= \"w\" A \"w\"; A ::= ;",
        &[(0, &[WORD, A, WORD]), (0, EMPTY)],
        None,
    ),
    ("A ::= A A; A ::= ;", &[(0, &[A, A]), (0, EMPTY)], Some(0)),
    (
        "A ::= A A; A ::= \"w\";",
        &[(0, &[A, A]), (0, &[WORD])],
        None,
    ),
    ("A ::= B; B ::= A;", &[(0, &[B]), (1, &[A])], Some(0)),
    (
        "D ::= D; C ::= B; B ::= C;",
        &[(3, &[D]), (2, &[B]), (1, &[C])],
        Some(1),
    ),
    (
        "A ::= B; B ::= C; C ::= B;",
        &[(0, &[B]), (1, &[C]), (2, &[B])],
        Some(1),
    ),
    (
        "A ::= B C; B ::= ; C ::= A;",
        &[(0, &[B, C]), (1, EMPTY), (2, &[A])],
        Some(0),
    ),
    (
        "A ::= B C; B ::= A; C ::= \"w\";",
        &[(0, &[B, C]), (1, &[A]), (2, &[WORD])],
        None,
    ),
    (
        "D ::= C D C; C ::= ;",
        &[(3, &[C, D, C]), (2, EMPTY)],
        Some(3),
    ),
];

/// The first category of the parts that reaches itself.
fn cyclic_in(alloc: Global, parts: &GrammarParts) -> Result<Option<u16>, AllocError> {
    let nullable = nullable_flags(alloc, parts)?;
    match check_cycles(alloc, parts, nullable.as_slice())? {
        CycleCheck::Cyclic(category) => Ok(Some(category)),
        CycleCheck::Ranked(_) => Ok(None),
    }
}

/// The first category that reaches itself by these rules, or `None` where they do not fit together.
fn cyclic_of(alloc: Global, sides: Sides) -> Result<Option<Option<u16>>, AllocError> {
    match small_parts(alloc, sides)? {
        Some(parts) => Ok(Some(cyclic_in(alloc, &parts)?)),
        None => Ok(None),
    }
}

#[test]
fn the_least_category_that_reaches_itself_is_told(rt: HostRuntime) -> Result<(), Fail> {
    for (text, rules, want) in CYCLES {
        let cyclic = cyclic_of(rt.alloc(), *rules)?;
        assert_eq!(rt; cyclic, Some(*want), "at {text:?}");
    }
    Ok(())
}

#[test]
fn rules_by_which_a_category_reaches_itself_are_no_grammar(rt: HostRuntime) -> Result<(), Fail> {
    for (text, rules, cyclic) in CYCLES {
        let accepted = is_grammar(rt.alloc(), *rules)?;
        assert_eq!(rt; accepted, cyclic.is_none(), "at {text:?}");
    }
    Ok(())
}

/// A grammar as it is written, with "w" for the word; its rules; and the ranks of its categories A,
/// B, C and D.
type Ranked = (&'static str, Sides, [u16; 4]);

const RANKED: &[Ranked] = &[
    ("", &[], [0, 0, 0, 0]),
    ("A ::= \"w\";", &[(0, &[WORD])], [0, 0, 0, 0]),
    (
        "A ::= B; B ::= C; C ::= D; D ::= \"w\";",
        &[(0, &[B]), (1, &[C]), (2, &[D]), (3, &[WORD])],
        [3, 2, 1, 0],
    ),
    (
        "D ::= C; C ::= B; B ::= A;",
        &[(3, &[C]), (2, &[B]), (1, &[A])],
        [0, 1, 2, 3],
    ),
    (
        "A ::= C; A ::= B; C ::= D;",
        &[(0, &[C]), (0, &[B]), (2, &[D])],
        [2, 0, 1, 0],
    ),
    (
        "A ::= B; A ::= C; C ::= D;",
        &[(0, &[B]), (0, &[C]), (2, &[D])],
        [2, 0, 1, 0],
    ),
    (
        "A ::= B C; B ::= ; C ::= ;",
        &[(0, &[B, C]), (1, EMPTY), (2, EMPTY)],
        [1, 0, 0, 0],
    ),
    (
        "A ::= B B; B ::= ;",
        &[(0, &[B, B]), (1, EMPTY)],
        [1, 0, 0, 0],
    ),
    (
        "A ::= B B; B ::= \"w\";",
        &[(0, &[B, B]), (1, &[WORD])],
        [0, 0, 0, 0],
    ),
    (
        "A ::= B \"w\"; B ::= C;",
        &[(0, &[B, WORD]), (1, &[C])],
        [0, 1, 0, 0],
    ),
    (
        "A ::= B C; B ::= D; C ::= ;",
        &[(0, &[B, C]), (1, &[D]), (2, EMPTY)],
        [2, 1, 0, 0],
    ),
];

/// The rank of each category.
fn ranks_in(alloc: Global, grammar: &Grammar) -> Result<Vec<u16>, AllocError> {
    let mut ranks = Vec::new(alloc);
    for category in 0..grammar.category_count() {
        ranks.push(grammar.rank(category))?;
    }
    Ok(ranks)
}

/// The rank of each category by these rules, and none where they are no grammar.
fn ranks_of(alloc: Global, sides: Sides) -> Result<Vec<u16>, AllocError> {
    match grammar_of(alloc, sides)? {
        Some(grammar) => ranks_in(alloc, &grammar),
        None => Ok(Vec::new(alloc)),
    }
}

#[test]
fn a_rank_is_the_length_of_the_longest_chain_of_steps(rt: HostRuntime) -> Result<(), Fail> {
    for (text, rules, want) in RANKED {
        let ranks = ranks_of(rt.alloc(), *rules)?;
        assert_eq!(rt; ranks.as_slice(), want.as_slice(), "at {text:?}");
    }
    Ok(())
}
