//! Grammars that are expanded and that are refused, with numbers by hand.
mod showing;
mod whole_files;

use lbnf_grammar::*;
use showing::{Part, grammar_of, shows, tells};
use std::alloc::{AllocError, Global};
use std::test::*;

const SUMS: &str = "Add . Exp ::= Exp Tail; Rest . Tail ::= Plus Exp; \
    P . Plus ::= \"+\"; One . Exp ::= \"1\"; Two . Exp ::= \"+\"";

const STATEMENTS: &str = "If . S ::= \"if\" E S \"else\" S ; Skip . S ::= ; Var . E ::= \"x\"";

/// Sums of products of atoms, and a statement that is a sum.
const LEVELS: &str = "Add . Sum ::= Sum \"+\" Product; S . Sum ::= Product; \
    Mul . Product ::= Product \"*\" Atom; P . Product ::= Atom; One . Atom ::= \"1\"; \
    Do . Statement ::= Sum";

/// Files, and the texts of their categories.
const CATEGORIES: &[(&str, &str)] = &[(SUMS, "Exp Tail Plus"), ("", "")];

#[test]
fn categories_are_numbered_as_the_rules_meet_them(rt: HostRuntime) -> Result<(), Fail> {
    shows(&rt, rt.alloc(), Part::Categories, CATEGORIES)
}

/// Files, and how many rules, categories and kinds they give.
const COUNTS: &[(&str, &str)] = &[
    (SUMS, "rules 5 5, categories 3, kinds 2 2"),
    ("", "rules 0 0, categories 0, kinds 0 0"),
    (LEVELS, "rules 6 6, categories 4, kinds 3 3"),
];

#[test]
fn rules_categories_and_kinds_are_counted(rt: HostRuntime) -> Result<(), Fail> {
    shows(&rt, rt.alloc(), Part::Counts, COUNTS)
}

/// Files, and their entries.
const ENTRIES: &[(&str, &str)] = &[
    (SUMS, "Exp:0"),
    ("A . T ::= \"x\"; B . S ::= T T", "T:0"),
    ("B . S ::= T T; A . T ::= \"x\"", "S:0"),
    ("", ""),
];

#[test]
fn the_entry_is_the_category_of_the_first_rule(rt: HostRuntime) -> Result<(), Fail> {
    shows(&rt, rt.alloc(), Part::Entry, ENTRIES)
}

/// Internal categories, two of which have no other rule.
const INTERNAL: &str =
    "internal I. U ::= ; internal J. T ::= ; A. S ::= \"a\" T ; internal K. U ::= V ;";

#[test]
fn categories_of_internal_rules_are_numbered_last(rt: HostRuntime) -> Result<(), Fail> {
    shows(&rt, rt.alloc(), Part::Categories, &[(INTERNAL, "S T U")])
}

/// A file with a list.
const LIST: &str = "A. S ::= \"a\" T [T] ; B. T ::= \"b\" ; terminator T \";\" ;";

/// Files, names, and the symbols of these names.
const FOUND: &[(&str, &str, Option<Symbol>)] = &[
    (SUMS, "Exp", Some(Symbol::Category(0))),
    (SUMS, "Tail", Some(Symbol::Category(1))),
    (SUMS, "Plus", Some(Symbol::Category(2))),
    (SUMS, "Add", None),
    (SUMS, "exp", None),
    (SUMS, "", None),
    ("", "E", None),
    (INTERNAL, "S", Some(Symbol::Category(0))),
    (INTERNAL, "T", Some(Symbol::Category(1))),
    (INTERNAL, "U", Some(Symbol::Category(2))),
    (INTERNAL, "V", None),
    (LIST, "S", Some(Symbol::Category(0))),
    (LIST, "T", Some(Symbol::Category(1))),
    (LIST, "[T]", Some(Symbol::Category(2))),
];

fn found(alloc: Global, file: &str, name: &str) -> Option<Symbol> {
    let grammar = grammar_of(alloc, file)?;
    grammar.find(name.as_bytes())
}

#[test]
fn symbols_are_found_by_their_texts(rt: HostRuntime) {
    for (file, name, want) in FOUND {
        assert_eq!(rt; found(rt.alloc(), file, name), *want, "{name} of {file}");
    }
}

/// Files, the first category of each that is not known, and the definition that names it.
const UNKNOWN: &[(&str, &str)] = &[
    ("A . E ::= E F", "category F 0"),
    ("A . E ::= F G", "category F 0"),
    (
        "A . E ::= \"x\"; B . E ::= E E; C . E ::= E Z; D . E ::= Y E",
        "category Z 2",
    ),
    ("A . E ::= F G; B . F ::= \"x\"", "category G 0"),
];

#[test]
fn the_first_category_without_a_rule_is_told(rt: HostRuntime) -> Result<(), Fail> {
    tells(&rt, rt.alloc(), UNKNOWN)
}

/// Which categories of the file are nullable, and none where there is no grammar.
fn flags_of(alloc: Global, file: &str) -> Result<Vec<bool>, AllocError> {
    match grammar_of(alloc, file) {
        Some(grammar) => Vec::from_slice(alloc, grammar.nullable_flags()),
        None => Ok(Vec::new(alloc)),
    }
}

#[test]
fn a_category_is_nullable_where_a_side_has_neither_a_word_nor_another_category(
    rt: HostRuntime,
) -> Result<(), Fail> {
    let sums = flags_of(rt.alloc(), SUMS)?;
    let statements = flags_of(rt.alloc(), STATEMENTS)?;
    assert_eq!(rt; sums.as_slice(), [false, false, false].as_slice());
    assert_eq!(rt; statements.as_slice(), [true, false].as_slice());
    Ok(())
}

/// The rank of each category.
fn ranks_in(alloc: Global, grammar: &Grammar) -> Result<Vec<u16>, AllocError> {
    let mut ranks = Vec::new(alloc);
    for category in 0..grammar.category_count() {
        ranks.push(grammar.rank(category))?;
    }
    Ok(ranks)
}

/// The rank of each category of the file, and none where there is no grammar.
fn ranks_of(alloc: Global, file: &str) -> Result<Vec<u16>, AllocError> {
    match grammar_of(alloc, file) {
        Some(grammar) => ranks_in(alloc, &grammar),
        None => Ok(Vec::new(alloc)),
    }
}

#[test]
fn an_expanded_grammar_has_ranks(rt: HostRuntime) -> Result<(), Fail> {
    let ranks = ranks_of(rt.alloc(), LEVELS)?;
    assert_eq!(rt; ranks.as_slice(), [2, 1, 0, 3].as_slice());
    Ok(())
}
