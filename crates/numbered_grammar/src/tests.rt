//! Grammars of rules that are built by hand.
mod cycles_and_ranks;
mod empty_spans;
mod small_grammars;

use super::*;
use small_grammars::grammar_of_names;
use std::alloc::{AllocError, Global};
use std::test::*;

/// The symbol of this name in a grammar of two categories and two tokens.
fn found(alloc: Global, name: &str) -> Result<Option<Symbol>, AllocError> {
    match grammar_of_names(alloc, &["S", "T"], &["Hex", "Id"])? {
        Some(grammar) => Ok(grammar.find(name.as_bytes())),
        None => Ok(None),
    }
}

const FOUND: &[(&str, Option<Symbol>)] = &[
    ("S", Some(Symbol::Category(0))),
    ("T", Some(Symbol::Category(1))),
    ("Hex", Some(Symbol::Kind(1))),
    ("Id", Some(Symbol::Kind(2))),
    ("U", None),
    ("", None),
];

#[test]
fn symbols_are_found_by_their_names(rt: HostRuntime) -> Result<(), Fail> {
    for (name, want) in FOUND {
        let symbol = found(rt.alloc(), name)?;
        assert_eq!(rt; symbol, *want, "at {name}");
    }
    Ok(())
}

/// Whether categories of these names, and a word and tokens of these, are a grammar.
fn are_apart(alloc: Global, names: &[&str], tokens: &[&str]) -> Result<bool, AllocError> {
    let grammar = grammar_of_names(alloc, names, tokens)?;
    Ok(grammar.is_some())
}

/// Names of categories and of tokens, two of which are equal.
const EQUAL_NAMES: &[(&[&str], &[&str])] = &[
    (&["S", "T", "S"], &[]),
    (&["S"], &["Id", "Id"]),
    (&["S", "Id"], &["Id"]),
];

#[test]
fn equal_names_give_no_grammar(rt: HostRuntime) -> Result<(), Fail> {
    for (names, tokens) in EQUAL_NAMES {
        let apart = are_apart(rt.alloc(), names, tokens)?;
        assert!(rt; !apart, "at {names:?} {tokens:?}");
    }
    Ok(())
}
