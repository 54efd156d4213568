//! Small grammars, told by their rules alone: the categories have numbers for names.
use numbered_grammar::{Grammar, Items, KindDef, Label, LexiconParts, Name, Rule, Symbol};
use std::alloc::Global;

/// A rule by its category's number and its items.
pub type Side = (u16, &'static [Symbol]);

/// How many categories and kinds there are, and the rules.
pub type Sample = (u16, u16, &'static [Side]);

const S: Symbol = Symbol::Category(0);

const A: Symbol = Symbol::Category(1);

const B: Symbol = Symbol::Category(2);

const FIRST: Symbol = Symbol::Kind(0);

const SECOND: Symbol = Symbol::Kind(1);

const EMPTY: &[Symbol] = &[];

/// `S ::= S S S`, `S ::= a`: S is 0, a is 1, and the suffixes are 2, 3 and 4, and 5.
pub const TRIPLES: Sample = (1, 1, &[(0, &[S, S, S]), (0, &[FIRST])]);

/// `S ::= ( S )`, `S ::=`: S is 0, the brackets are 1 and 2, and the suffixes are 3, 4 and 5.
pub const BRACKETS: Sample = (1, 2, &[(0, &[FIRST, S, SECOND]), (0, EMPTY)]);

/// `S ::= A B`, `A ::=`, `B ::=`, `A ::= a`: S, A and B are 0, 1 and 2, a is 3, and the
/// suffixes are 4 and 5, and 6.
pub const PAIRS: Sample = (3, 1, &[(0, &[A, B]), (1, EMPTY), (2, EMPTY), (1, &[FIRST])]);

/// No rules, and no symbols.
pub const NOTHING: Sample = (0, 0, &[]);

fn names(alloc: Global, count: u16) -> Option<Vec<Name>> {
    let mut names = Vec::new(alloc);
    for number in 0..count {
        let text = format!(in alloc; "{number}").ok()?;
        let bytes = Vec::from_slice(alloc, text.as_str().as_bytes()).ok()?;
        names.push(Name::of(bytes)).ok()?;
    }
    Some(names)
}

fn words(alloc: Global, count: u16) -> Option<Vec<KindDef>> {
    let mut kinds = Vec::new(alloc);
    for _ in 0..count {
        kinds.push(KindDef::Word(Name::of(Vec::new(alloc)))).ok()?;
    }
    Some(kinds)
}

/// The grammar of the sample, `None` where memory ran out or it is no grammar.
pub fn grammar_of(alloc: Global, sample: Sample) -> Option<Grammar> {
    let (categories, kinds, sides) = sample;
    let mut rules = Vec::new(alloc);
    for (category, items) in sides {
        let rule = Rule {
            label: Label::Wild,
            category: *category,
            items: Items::from_slice(alloc, items).ok()?,
        };
        rules.push(rule).ok()?;
    }
    let names = names(alloc, categories)?;
    let lexicon = LexiconParts::of_kinds(alloc, words(alloc, kinds)?);
    Grammar::of_rules(alloc, rules, names, lexicon).ok()?
}

/// One category, and one rule for it that has it so many times, which is no grammar where that is
/// once.
pub fn long_rule(alloc: Global, count: usize) -> Option<Grammar> {
    let mut items = Items::new(alloc);
    for _ in 0..count {
        items.push(S).ok()?;
    }
    let rule = Rule {
        label: Label::Wild,
        category: 0,
        items,
    };
    let rules = vec![in alloc; rule].ok()?;
    let lexicon = LexiconParts::of_kinds(alloc, Vec::new(alloc));
    Grammar::of_rules(alloc, rules, names(alloc, 1)?, lexicon).ok()?
}
