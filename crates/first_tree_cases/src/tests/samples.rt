//! Small grammars, told by their rules alone: categories are named by their numbers.
use numbered_grammar::{Grammar, Items, KindDef, Label, LexiconParts, Name, Rule, Symbol};
use std::alloc::Global;

/// A rule by its category's number and its items.
pub type Side = (u16, &'static [Symbol]);

/// How many categories and kinds there are, and the rules.
pub type Sample = (u16, u16, &'static [Side]);

const S: Symbol = Symbol::Category(0);

const A: Symbol = Symbol::Category(1);

const B: Symbol = Symbol::Category(2);

const FIRST: Symbol = Symbol::Kind(0);

const SECOND: Symbol = Symbol::Kind(1);

const NUMBER: Symbol = Symbol::Kind(4);

const EMPTY: &[Symbol] = &[];

/// `S ::= S S`, `S ::= a`.
pub const TWINS: Sample = (1, 1, &[(0, &[S, S]), (0, &[FIRST])]);

/// `S ::= S S S`, `S ::= a`.
pub const TRIPLES: Sample = (1, 1, &[(0, &[S, S, S]), (0, &[FIRST])]);

/// `S ::= A B`, `A ::=`, `B ::=`, `A ::= a`.
pub const PAIRS: Sample = (3, 1, &[(0, &[A, B]), (1, EMPTY), (2, EMPTY), (1, &[FIRST])]);

/// `S ::= a S`, `S ::= A`, `S ::=`, `A ::=`.
pub const NULLABLES: Sample = (2, 1, &[(0, &[FIRST, S]), (0, &[A]), (0, EMPTY), (1, EMPTY)]);

/// `S ::= A B`, `A ::=`, `A ::= a`, `B ::= a`, `B ::=`: one of the siblings is empty.
pub const SIBLINGS: Sample = (
    3,
    1,
    &[
        (0, &[A, B]),
        (1, EMPTY),
        (1, &[FIRST]),
        (2, &[FIRST]),
        (2, EMPTY),
    ],
);

/// Statements `S ::= skip`, and lists `A ::=`, `A ::= S ; A` of them.
pub const LISTS: Sample = (2, 2, &[(0, &[FIRST]), (1, EMPTY), (1, &[S, SECOND, A])]);

/// Sums, products and numbers: `S ::= S + A`, `A ::= A * B`, `B ::= number`, `S ::= A`, `A ::= B`,
/// `B ::= ( S )`.
pub const SUMS: Sample = (
    3,
    5,
    &[
        (0, &[S, FIRST, A]),
        (1, &[A, SECOND, B]),
        (2, &[NUMBER]),
        (0, &[A]),
        (1, &[B]),
        (2, &[Symbol::Kind(2), S, Symbol::Kind(3)]),
    ],
);

pub fn names(alloc: Global, count: u16) -> Option<Vec<Name>> {
    let mut names = Vec::new(alloc);
    for number in 0..count {
        let text = format!(in alloc; "{number}").ok()?;
        let bytes = Vec::from_slice(alloc, text.as_str().as_bytes()).ok()?;
        names.push(Name::of(bytes)).ok()?;
    }
    Some(names)
}

fn words(alloc: Global, count: u16) -> Option<Vec<KindDef>> {
    let mut kinds = Vec::new(alloc);
    for _ in 0..count {
        kinds.push(KindDef::Word(Name::of(Vec::new(alloc)))).ok()?;
    }
    Some(kinds)
}

fn rule_of(alloc: Global, category: u16, items: &[Symbol]) -> Option<Rule> {
    Some(Rule {
        label: Label::Wild,
        category,
        items: Items::from_slice(alloc, items).ok()?,
    })
}

/// The grammar of the sample, `None` where memory ran out or it is no grammar.
pub fn grammar_of(alloc: Global, sample: Sample) -> Option<Grammar> {
    let (categories, kinds, sides) = sample;
    let mut rules = Vec::new(alloc);
    for (category, items) in sides {
        rules.push(rule_of(alloc, *category, items)?).ok()?;
    }
    let names = names(alloc, categories)?;
    let lexicon = LexiconParts::of_kinds(alloc, words(alloc, kinds)?);
    Grammar::of_rules(alloc, rules, names, lexicon).ok()?
}
