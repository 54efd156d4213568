//! The grammars that are measured. Their categories have numbers for names.
use numbered_grammar::{Grammar, Items, KindDef, Label, LexiconParts, Name, Rule, Symbol};
use std::alloc::{AllocError, Global};

fn unnamed(alloc: Global) -> Name {
    Name::of(Vec::new(alloc))
}

fn categories(alloc: Global, count: u16) -> Result<Vec<Name>, AllocError> {
    let mut names = Vec::with_capacity(alloc, count as usize)?;
    for number in 0..count {
        let text = format!(in alloc; "{number}")?;
        names.push(Name::of(Vec::from_slice(alloc, text.as_str().as_bytes())?))?;
    }
    Ok(names)
}

fn kinds(alloc: Global, count: usize) -> Result<LexiconParts, AllocError> {
    let mut words = Vec::with_capacity(alloc, count)?;
    for _ in 0..count {
        words.push(KindDef::Word(unnamed(alloc)))?;
    }
    Ok(LexiconParts::of_kinds(alloc, words))
}

fn rule(alloc: Global, category: u16, items: &[Symbol]) -> Result<Rule, AllocError> {
    Ok(Rule {
        label: Label::Wild,
        category,
        items: Items::from_slice(alloc, items)?,
    })
}

/// A chain of so many rules of one item: each category goes to the next, and the last to a kind.
pub fn chain(alloc: Global, count: u16) -> Option<Grammar> {
    let mut rules = Vec::new(alloc);
    for category in 1..count {
        let next = Symbol::Category(category);
        rules.push(rule(alloc, category - 1, &[next]).ok()?).ok()?;
    }
    if count > 0 {
        rules
            .push(rule(alloc, count - 1, &[Symbol::Kind(0)]).ok()?)
            .ok()?;
    }
    let names = categories(alloc, count).ok()?;
    Grammar::of_rules(alloc, rules, names, kinds(alloc, 1).ok()?).ok()?
}

const PROGRAM: u16 = 0;

const DEFS: Symbol = Symbol::Category(1);

const DEF: Symbol = Symbol::Category(2);

const TYPE: Symbol = Symbol::Category(3);

const PARAMS: Symbol = Symbol::Category(4);

const PARAM: Symbol = Symbol::Category(5);

const STMS: Symbol = Symbol::Category(6);

const STM: Symbol = Symbol::Category(7);

const EXP: Symbol = Symbol::Category(8);

const SUM: Symbol = Symbol::Category(9);

const PRODUCT: Symbol = Symbol::Category(10);

const ATOM: Symbol = Symbol::Category(11);

const EXPS: Symbol = Symbol::Category(12);

const NAME: Symbol = Symbol::Kind(0);

const NUMBER: Symbol = Symbol::Kind(1);

const OPEN: Symbol = Symbol::Kind(2);

const CLOSE: Symbol = Symbol::Kind(3);

const BEGIN: Symbol = Symbol::Kind(4);

const END: Symbol = Symbol::Kind(5);

const COMMA: Symbol = Symbol::Kind(6);

const SEMICOLON: Symbol = Symbol::Kind(7);

const INT: Symbol = Symbol::Kind(8);

const BOOL: Symbol = Symbol::Kind(9);

const IS: Symbol = Symbol::Kind(10);

const WHILE: Symbol = Symbol::Kind(11);

const IF: Symbol = Symbol::Kind(12);

const ELSE: Symbol = Symbol::Kind(13);

const RETURN: Symbol = Symbol::Kind(14);

const LESS: Symbol = Symbol::Kind(15);

const PLUS: Symbol = Symbol::Kind(16);

const TIMES: Symbol = Symbol::Kind(17);

/// The rules of a small imperative language, with lists and levels of expressions written out.
const IMPERATIVE: &[(u16, &[Symbol])] = &[
    (PROGRAM, &[DEFS]),
    (1, &[DEF]),
    (1, &[DEF, DEFS]),
    (2, &[TYPE, NAME, OPEN, PARAMS, CLOSE, BEGIN, STMS, END]),
    (5, &[TYPE, NAME]),
    (4, &[]),
    (4, &[PARAM]),
    (4, &[PARAM, COMMA, PARAMS]),
    (3, &[INT]),
    (3, &[BOOL]),
    (6, &[]),
    (6, &[STM, STMS]),
    (7, &[TYPE, NAME, IS, EXP, SEMICOLON]),
    (7, &[NAME, IS, EXP, SEMICOLON]),
    (7, &[WHILE, OPEN, EXP, CLOSE, STM]),
    (7, &[IF, OPEN, EXP, CLOSE, STM, ELSE, STM]),
    (7, &[RETURN, EXP, SEMICOLON]),
    (7, &[BEGIN, STMS, END]),
    (8, &[SUM, LESS, SUM]),
    (9, &[SUM, PLUS, PRODUCT]),
    (10, &[PRODUCT, TIMES, ATOM]),
    (11, &[NAME, OPEN, EXPS, CLOSE]),
    (11, &[NAME]),
    (11, &[NUMBER]),
    (12, &[]),
    (12, &[EXP]),
    (12, &[EXP, COMMA, EXPS]),
    (8, &[SUM]),
    (9, &[PRODUCT]),
    (10, &[ATOM]),
    (11, &[OPEN, EXP, CLOSE]),
];

/// The grammar of a small imperative language: 31 rules of up to eight items.
pub fn imperative(alloc: Global) -> Option<Grammar> {
    let mut rules = Vec::new(alloc);
    for (category, items) in IMPERATIVE {
        rules.push(rule(alloc, *category, items).ok()?).ok()?;
    }
    let names = categories(alloc, 13).ok()?;
    Grammar::of_rules(alloc, rules, names, kinds(alloc, 18).ok()?).ok()?
}
