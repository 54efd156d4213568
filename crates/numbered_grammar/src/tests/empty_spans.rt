//! Nullable categories of small grammars, whose rules are built by hand.
use super::small_grammars::{A, B, C, D, EMPTY, Sides, WORD, is_grammar, small_parts};
use crate::nullable::{category_numbers, is_nullable, nullable_flags};
use crate::*;
use std::alloc::{AllocError, Global};
use std::test::*;

/// A grammar as it is written, with "w" for the word; its rules; and which of A, B, C and D are
/// nullable by them.
type Case = (&'static str, Sides, [bool; 4]);

const CASES: &[Case] = &[
    ("", &[], [false, false, false, false]),
    ("A ::= ;", &[(0, EMPTY)], [true, false, false, false]),
    (
        "A ::= \"w\";",
        &[(0, &[WORD])],
        [false, false, false, false],
    ),
    (
        "A ::= B C; B ::= ; C ::= ; D ::= \"w\";",
        &[(0, &[B, C]), (1, EMPTY), (2, EMPTY), (3, &[WORD])],
        [true, true, true, false],
    ),
    (
        "A ::= B C; B ::= ; C ::= \"w\";",
        &[(0, &[B, C]), (1, EMPTY), (2, &[WORD])],
        [false, true, false, false],
    ),
    (
        "A ::= C B; B ::= ; C ::= \"w\";",
        &[(0, &[C, B]), (1, EMPTY), (2, &[WORD])],
        [false, true, false, false],
    ),
    (
        "A ::= B B B; B ::= ;",
        &[(0, &[B, B, B]), (1, EMPTY)],
        [true, true, false, false],
    ),
    (
        "A ::= B \"w\" B; B ::= ;",
        &[(0, &[B, WORD, B]), (1, EMPTY)],
        [false, true, false, false],
    ),
    ("A ::= A;", &[(0, &[A])], [false, false, false, false]),
    (
        "A ::= B; B ::= A;",
        &[(0, &[B]), (1, &[A])],
        [false, false, false, false],
    ),
    (
        "A ::= A A; A ::= ;",
        &[(0, &[A, A]), (0, EMPTY)],
        [true, false, false, false],
    ),
    (
        "A ::= \"w\"; A ::= B; B ::= ;",
        &[(0, &[WORD]), (0, &[B]), (1, EMPTY)],
        [true, true, false, false],
    ),
    (
        "A ::= B; B ::= C; C ::= D; D ::= ;",
        &[(0, &[B]), (1, &[C]), (2, &[D]), (3, EMPTY)],
        [true, true, true, true],
    ),
    (
        "D ::= ; C ::= D; B ::= C; A ::= B;",
        &[(3, EMPTY), (2, &[D]), (1, &[C]), (0, &[B])],
        [true, true, true, true],
    ),
    (
        "A ::= B C B; C ::= B; B ::= D D; D ::= ;",
        &[(0, &[B, C, B]), (2, &[B]), (1, &[D, D]), (3, EMPTY)],
        [true, true, true, true],
    ),
    (
        "A ::= B C; B ::= D; C ::= A; D ::= ;",
        &[(0, &[B, C]), (1, &[D]), (2, &[A]), (3, EMPTY)],
        [false, true, false, true],
    ),
    (
        "A ::= B; B ::= C; C ::= D; D ::= \"w\" D;",
        &[(0, &[B]), (1, &[C]), (2, &[D]), (3, &[WORD, D])],
        [false, false, false, false],
    ),
];

/// Which categories are nullable by these rules, and none where they do not fit together.
fn flags_of(alloc: Global, sides: Sides) -> Result<Vec<bool>, AllocError> {
    match small_parts(alloc, sides)? {
        Some(parts) => nullable_flags(alloc, &parts),
        None => Ok(Vec::new(alloc)),
    }
}

#[test]
fn a_category_is_nullable_where_a_rule_of_it_has_nullable_items_alone(
    rt: HostRuntime,
) -> Result<(), Fail> {
    for (text, rules, want) in CASES {
        let flags = flags_of(rt.alloc(), *rules)?;
        assert_eq!(rt; flags.as_slice(), want.as_slice(), "at {text:?}");
    }
    Ok(())
}

const FLAGS: [bool; 3] = [true, false, true];

#[test]
fn a_kind_is_not_nullable_and_a_category_is_where_its_flag_is_set(
    rt: HostRuntime,
) -> Result<(), Fail> {
    for (symbol, want) in [(A, true), (B, false), (C, true), (D, false), (WORD, false)] {
        assert_eq!(rt;
            is_nullable(FLAGS.as_slice(), symbol),
            want,
            "at {symbol:?}"
        );
    }
    Ok(())
}

/// Items, and their numbers where they are categories alone.
const NUMBERED: &[(&[Symbol], Option<&[u16]>)] = &[
    (EMPTY, Some(&[])),
    (&[A], Some(&[0])),
    (&[C, A, C], Some(&[2, 0, 2])),
    (&[WORD], None),
    (&[A, WORD], None),
    (&[WORD, B], None),
    (&[A, WORD, C], None),
];

#[test]
fn items_have_numbers_where_they_are_categories_alone(rt: HostRuntime) -> Result<(), Fail> {
    for (items, want) in NUMBERED {
        let numbers = category_numbers(rt.alloc(), items)?;
        let numbers = numbers.as_ref().map(|numbers| numbers.as_slice());
        assert_eq!(rt; numbers, *want, "at {items:?}");
    }
    Ok(())
}

const E: Symbol = Symbol::Category(4);

const SECOND_WORD: Symbol = Symbol::Kind(1);

/// The category and the items of the second of three rules, and whether the three are a grammar.
const SECOND_RULES: &[(u16, &[Symbol], bool)] = &[
    (3, EMPTY, true),
    (4, EMPTY, false),
    (0, &[D, WORD], true),
    (0, &[E], false),
    (0, &[SECOND_WORD], false),
    (0, &[A, WORD, A, E], false),
    (0, &[SECOND_WORD, A], false),
];

#[test]
fn rules_with_a_symbol_that_is_not_there_are_no_grammar(rt: HostRuntime) -> Result<(), Fail> {
    for (category, items, want) in SECOND_RULES {
        let sides = [(1, [A, B].as_slice()), (*category, *items), (2, EMPTY)];
        let accepted = is_grammar(rt.alloc(), sides.as_slice())?;
        assert_eq!(rt; accepted, *want, "at {category} {items:?}");
    }
    Ok(())
}
