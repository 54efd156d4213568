//! Grammars whose rules are built by hand.
use crate::making::parts_of;
use crate::parts::GrammarParts;
use crate::*;
use spec_lexing::Expr;
use std::alloc::{AllocError, Global};

/// The rules of a grammar, each a category and its side.
pub type Sides = &'static [(u16, &'static [Symbol])];

fn unnamed(alloc: Global) -> Name {
    Name::of(Vec::new(alloc))
}

fn name_of(alloc: Global, text: &str) -> Result<Name, AllocError> {
    Ok(Name::of(Vec::from_slice(alloc, text.as_bytes())?))
}

fn names_of(alloc: Global, texts: &[&str]) -> Result<Vec<Name>, AllocError> {
    let mut names = Vec::new(alloc);
    for text in texts {
        names.push(name_of(alloc, text)?)?;
    }
    Ok(names)
}

/// The categories A, B, C and D.
fn categories(alloc: Global) -> Result<Vec<Name>, AllocError> {
    names_of(alloc, &["A", "B", "C", "D"])
}

/// One kind, which is a word.
fn one_word(alloc: Global) -> Result<LexiconParts, AllocError> {
    let kinds = vec![in alloc; KindDef::Word(unnamed(alloc))]?;
    Ok(LexiconParts::of_kinds(alloc, kinds))
}

fn rule(alloc: Global, category: u16, items: &[Symbol]) -> Result<Rule, AllocError> {
    Ok(Rule {
        label: Label::Wild,
        category,
        items: Items::from_slice(alloc, items)?,
    })
}

fn rules(alloc: Global, sides: &[(u16, &[Symbol])]) -> Result<Vec<Rule>, AllocError> {
    let mut rules = Vec::new(alloc);
    for (category, items) in sides {
        rules.push(rule(alloc, *category, items)?)?;
    }
    Ok(rules)
}

/// The parts of these rules over the categories 0 to 3 and the kind 0.
pub fn small_parts(
    alloc: Global,
    sides: &[(u16, &[Symbol])],
) -> Result<Option<GrammarParts>, AllocError> {
    let categories = categories(alloc)?;
    parts_of(alloc, rules(alloc, sides)?, categories, one_word(alloc)?)
}

fn token_of(alloc: Global, text: &str) -> Result<KindDef, AllocError> {
    let name = name_of(alloc, text)?;
    let expr = Expr::Eps;
    Ok(KindDef::Token { name, expr })
}

/// A word, and tokens of these names.
fn word_and_tokens(alloc: Global, tokens: &[&str]) -> Result<LexiconParts, AllocError> {
    let mut lexicon = one_word(alloc)?;
    for text in tokens {
        lexicon.kinds.push(token_of(alloc, text)?)?;
    }
    Ok(lexicon)
}

/// The grammar of no rules over categories of these names, and a word and tokens of these.
pub fn grammar_of_names(
    alloc: Global,
    names: &[&str],
    tokens: &[&str],
) -> Result<Option<Grammar>, AllocError> {
    let categories = names_of(alloc, names)?;
    let lexicon = word_and_tokens(alloc, tokens)?;
    Grammar::of_rules(alloc, Vec::new(alloc), categories, lexicon)
}

/// The grammar of these rules over the categories 0 to 3 and the kind 0.
pub fn grammar_of(
    alloc: Global,
    sides: &[(u16, &[Symbol])],
) -> Result<Option<Grammar>, AllocError> {
    let categories = categories(alloc)?;
    Grammar::of_rules(alloc, rules(alloc, sides)?, categories, one_word(alloc)?)
}

/// Whether these rules over the categories 0 to 3 and the kind 0 are a grammar.
pub fn is_grammar(alloc: Global, sides: &[(u16, &[Symbol])]) -> Result<bool, AllocError> {
    let grammar = grammar_of(alloc, sides)?;
    Ok(grammar.is_some())
}

pub const A: Symbol = Symbol::Category(0);

pub const B: Symbol = Symbol::Category(1);

pub const C: Symbol = Symbol::Category(2);

pub const D: Symbol = Symbol::Category(3);

pub const WORD: Symbol = Symbol::Kind(0);

pub const EMPTY: &[Symbol] = &[];
