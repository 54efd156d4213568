//! Grammars of rules that are written out, or read as numbers, and their binary forms.
use crate::input::{Numbers, ROOM, WideCell};
use binary_form::{Binary, binary, symbol_count};
use cell_sets::Bits;
use numbered_grammar::{Grammar, Items, KindDef, Label, LexiconParts, Name, Rule, Symbol};
use std::alloc::{AllocError, Global};

/// The most categories, and the most kinds, of a grammar that is read.
const MOST: u32 = 1_000;

/// So many names, which are numbers.
fn names(alloc: Global, count: u32) -> Result<Vec<Name>, AllocError> {
    let mut names = Vec::new(alloc);
    for number in 0..count {
        let text = format!(in alloc; "{number}")?;
        names.push(Name::of(Vec::from_slice(alloc, text.as_str().as_bytes())?))?;
    }
    Ok(names)
}

fn kinds(alloc: Global, count: u32) -> Result<LexiconParts, AllocError> {
    let mut words = Vec::new(alloc);
    for _kind in 0..count {
        words.push(KindDef::Word(Name::of(Vec::new(alloc))))?;
    }
    Ok(LexiconParts::of_kinds(alloc, words))
}

/// The grammar of so many categories and kinds and these rules.
fn grammar(alloc: Global, categories: u32, kind_count: u32, rules: Vec<Rule>) -> Option<Grammar> {
    let names = names(alloc, categories).ok()?;
    let lexicon = kinds(alloc, kind_count).ok()?;
    Grammar::of_rules(alloc, rules, names, lexicon).ok()?
}

fn rule(alloc: Global, category: u16, items: &[Symbol]) -> Result<Rule, AllocError> {
    Ok(Rule {
        label: Label::Wild,
        category,
        items: Items::from_slice(alloc, items)?,
    })
}

const S: Symbol = Symbol::Category(0);

const T: Symbol = Symbol::Category(1);

const U: Symbol = Symbol::Category(2);

const A: Symbol = Symbol::Kind(0);

const B: Symbol = Symbol::Kind(1);

/// Rules of three categories and two kinds, of which U derives the empty span.
const RULES: &[(u16, &[Symbol])] = &[
    (0, &[S, T, S]),
    (1, &[T, S]),
    (0, &[A, U, T, B]),
    (1, &[S, B, S, T]),
    (2, &[]),
    (2, &[B, A]),
    (0, &[A]),
    (1, &[B]),
];

/// The binary form of a small grammar with 22 symbols.
pub fn small_form(alloc: Global) -> Option<Binary<Bits<1>>> {
    let mut rules = Vec::new(alloc);
    for (category, items) in RULES {
        rules.push(rule(alloc, *category, items).ok()?).ok()?;
    }
    let grammar = grammar(alloc, 3, 2, rules)?;
    if symbol_count(&grammar) > 64 {
        return None;
    }
    binary::<Bits<1>>(alloc, &grammar).ok()
}

/// The symbol of this number: categories come first, then kinds. None where it is too large.
fn symbol(categories: u32, number: u32) -> Option<Symbol> {
    match number.checked_sub(categories) {
        Some(kind) => Some(Symbol::Kind(u16::try_from(kind).ok()?)),
        None => Some(Symbol::Category(u16::try_from(number).ok()?)),
    }
}

/// A rule: its category, how many items it has, and these.
fn read_rule(alloc: Global, numbers: &mut Numbers, categories: u32) -> Option<Rule> {
    let category = u16::try_from(numbers.next()?).ok()?;
    let mut items = Vec::new(alloc);
    for _item in 0..numbers.next()? {
        items.push(symbol(categories, numbers.next()?)?).ok()?;
    }
    rule(alloc, category, items.as_slice()).ok()
}

/// The binary form of a grammar: how many categories, kinds and rules it has, and these.
pub fn read_form(alloc: Global, numbers: &mut Numbers) -> Option<Binary<WideCell>> {
    let categories = numbers.next()?.min(MOST);
    let kinds = numbers.next()?.min(MOST);
    let mut rules = Vec::new(alloc);
    for _rule in 0..numbers.next()? {
        rules.push(read_rule(alloc, numbers, categories)?).ok()?;
    }
    let grammar = grammar(alloc, categories, kinds, rules)?;
    if symbol_count(&grammar) > ROOM {
        return None;
    }
    binary::<WideCell>(alloc, &grammar).ok()
}
