//! Printed trees of a small grammar, worked out by hand.
ghost use Rattle.std.specs.Prelude.{◌≡◌, ◌≤◌, All, IsUtf8, IfOk, IfSome, length};
ghost use Rattle.spec_lexing.specs.Classes.{IsSoundDef};
ghost use Rattle.spec_lexing.specs.Lexicon.{Lexicon};
ghost use Rattle.text_store.specs.TextStore.{Lexes};

use super::answer_of;
use super::samples::names;
use cyk_io::{ByteSink, CleanSink, IoFault, Sink};
use first_tree::{First, print};
use lbnf_regex::{Automaton, automaton};
use numbered_grammar::{Grammar, Items, KindDef, Label, LexiconParts, Name, Rule, Symbol};
use spec_lexing::{Class, Expr};
use spec_trees::a_first_tree_is_a_parse_tree;
use std::alloc::Global;
use std::test::*;
use text_store::Text;

fn name(alloc: Global, text: &str) -> Option<Name>
    ensures { IfSome result IsUtf8 }
{
    Some(Name::of(Vec::from_slice(alloc, text.as_bytes()).ok()?))
}

/// The words `(`, `)`, `,` and `;`, and any other scalar.
fn kinds(alloc: Global) -> Option<Vec<KindDef>>
    ensures { IfSome result (λ kinds. All IsSoundDef kinds.items) }
{
    let mut kinds = Vec::new(alloc);
    for word in ["(", ")", ",", ";"] {
        kinds.push(KindDef::Word(name(alloc, word)?)).ok()?;
    }
    let any = KindDef::Token {
        name: name(alloc, "Any")?,
        expr: Expr::Class(Class::AnyChar),
    };
    kinds.push(any).ok()?;
    Some(kinds)
}

fn lexer(alloc: Global) -> Option<Automaton>
    ensures { IfSome result (λ a. (lexicon : Lexicon) × Lexes lexicon a) }
{
    let kinds = kinds(alloc)?;
    if kinds.len() > 65535 {
        return None;
    }
    match automaton(alloc, &[], &[], kinds.as_slice()) {
        Ok(automaton) => Some(automaton),
        Err(_) => None,
    }
}

/// How a rule is labelled.
#[derive(Clone, Copy, Debug)]
enum Form {
    Named(&'static str),
    Wild,
    Nil,
    Cons,
    One,
}

const S: Symbol = Symbol::Category(0);

const LIST: Symbol = Symbol::Category(1);

const ITEM: Symbol = Symbol::Category(2);

/// A list of the longest kind, behind a coercion.
const WRAPPED: Symbol = Symbol::Category(3);

/// Words alone, behind a coercion.
const MARK: Symbol = Symbol::Category(4);

/// Lists with an odd rule for one more: what is behind the first is a coercion, or no list.
const ODD: Symbol = Symbol::Category(5);

const OPENING: Symbol = Symbol::Kind(0);

const CLOSING: Symbol = Symbol::Kind(1);

const COMMA: Symbol = Symbol::Kind(2);

const SEMICOLON: Symbol = Symbol::Kind(3);

const ANY: Symbol = Symbol::Kind(4);

const RULES: &[(Form, u16, &[Symbol])] = &[
    (Form::Named("Prog"), 0, &[LIST]),
    (
        Form::Named("Marked"),
        0,
        &[MARK, ITEM, SEMICOLON, MARK, LIST],
    ),
    (Form::Nil, 1, &[]),
    (Form::One, 1, &[ITEM]),
    (Form::Cons, 1, &[ITEM, COMMA, LIST]),
    (Form::Named("Leaf"), 2, &[ANY]),
    (Form::Named("Nest"), 2, &[OPENING, ITEM, CLOSING]),
    (
        Form::Wild,
        2,
        &[OPENING, OPENING, ITEM, SEMICOLON, ITEM, CLOSING, CLOSING],
    ),
    (Form::Wild, 3, &[OPENING, LIST, CLOSING]),
    (Form::Wild, 4, &[COMMA, SEMICOLON]),
    (Form::Cons, 5, &[ITEM, SEMICOLON, WRAPPED]),
    (Form::Cons, 5, &[ITEM, COMMA, ITEM]),
    (Form::One, 5, &[MARK]),
    (Form::Nil, 5, &[COMMA, ITEM]),
];

fn label_of(alloc: Global, form: Form) -> Option<Label> {
    Some(match form {
        Form::Named(text) => Label::Named(name(alloc, text)?),
        Form::Wild => Label::Wild,
        Form::Nil => Label::Nil,
        Form::Cons => Label::Cons,
        Form::One => Label::One,
    })
}

fn grammar(alloc: Global) -> Option<Grammar> {
    let mut rules = Vec::new(alloc);
    for (form, category, items) in RULES {
        let rule = Rule {
            label: label_of(alloc, *form)?,
            category: *category,
            items: Items::from_slice(alloc, items).ok()?,
        };
        rules.push(rule).ok()?;
    }
    let names = names(alloc, 6)?;
    let lexicon = LexiconParts::of_kinds(alloc, kinds(alloc)?);
    Grammar::of_rules(alloc, rules, names, lexicon).ok()?
}

/// Prints the first tree of the symbol over the whole text. `None` where there is none, or memory
/// ran out before it was printed.
fn print_first<K: Sink>(
    alloc: Global,
    symbol: Symbol,
    text: &str,
    sink: &mut K,
) -> Option<Result<(), IoFault>> {
    let grammar = grammar(alloc)?;
    let automaton = lexer(alloc)?;
    let text = Text::open(alloc, &automaton, text.as_bytes()).ok()?;
    let Ok(kinds) = text.kinds(alloc) else {
        return None;
    };
    let whole = (symbol, 0, text.token_count());
    let found = answer_of(alloc, &grammar, kinds.as_slice(), whole)?;
    let First::Tree(tree) = found else {
        return None;
    };
    a_first_tree_is_a_parse_tree();
    Some(print(alloc, &tree, &grammar, &text, sink))
}

const PRINTS: &[(Symbol, &str, &str)] = &[
    (ANY, "a", "Any:a"),
    (OPENING, "(", ""),
    (ITEM, "a", "(Leaf Any:a)"),
    (LIST, "", "[]"),
    (LIST, "a", "[(Leaf Any:a)]"),
    (LIST, "a,b,c", "[(Leaf Any:a), (Leaf Any:b), (Leaf Any:c)]"),
    (LIST, "a,b,", "[(Leaf Any:a), (Leaf Any:b)]"),
    (S, "", "(Prog [])"),
    (S, "a,(b)", "(Prog [(Leaf Any:a), (Nest (Leaf Any:b))])"),
    // Words and what has words alone are no children.
    (S, ",;a;,;", "(Marked (Leaf Any:a) [])"),
    (MARK, ",;", ""),
    // Of a coercion with two children the first is printed.
    (ITEM, "((a;b))", "(Leaf Any:a)"),
    (WRAPPED, "(a,b)", "[(Leaf Any:a), (Leaf Any:b)]"),
    // A coercion hands the elements of its list on, to the same brackets.
    (ODD, "a;(b,c)", "[(Leaf Any:a), (Leaf Any:b), (Leaf Any:c)]"),
    (ODD, "a;()", "[(Leaf Any:a)]"),
    // What is no list has no elements.
    (ODD, "a,b", "[(Leaf Any:a)]"),
    (ODD, ",;", "[]"),
    (ODD, ",a", "[]"),
    // How bytes are printed.
    (ANY, "\\", "Any:\\\\"),
    (ANY, "\u{1}", "Any:\\x01"),
    (ANY, "\u{1f}", "Any:\\x1f"),
    (ANY, "\u{7f}", "Any:\\x7f"),
    (ANY, "\u{80}", "Any:\u{80}"),
    (ANY, "\u{e9}", "Any:\u{e9}"),
    (ANY, "\u{20ac}", "Any:\u{20ac}"),
    (ANY, "\u{1f600}", "Any:\u{1f600}"),
];

#[test]
fn a_tree_is_printed_by_its_labels(rt: HostRuntime) -> Result<(), Fail> {
    for (symbol, text, wanted) in PRINTS.iter().copied() {
        let mut sink = CleanSink::new(rt.alloc());
        let answer = print_first(rt.alloc(), symbol, text, &mut sink).ok_or("a tree")?;
        assert_eq!(rt; answer, Ok(()), "at {text:?}");
        assert_eq!(rt; sink.as_bytes(), wanted.as_bytes(), "at {text:?}");
    }
    Ok(())
}

#[test]
fn a_fault_at_a_byte_leaves_those_before_it(rt: HostRuntime) -> Result<(), Fail> {
    let wanted = "(Prog [(Leaf Any:\\x01), (Nest (Leaf Any:b))])".as_bytes();
    for at in 0..wanted.len() {
        let fail_at = Vec::from_slice(rt.alloc(), &[at as u64 + 1])?;
        let mut sink = ByteSink::new(rt.alloc(), 1, fail_at);
        let answer = print_first(rt.alloc(), S, "\u{1},(b)", &mut sink).ok_or("a tree")?;
        assert_eq!(rt; answer, Err(IoFault::Write), "at byte {at}");
        assert_eq!(rt; sink.as_bytes(), &wanted[..at], "at byte {at}");
    }
    Ok(())
}

#[test]
fn a_tree_is_as_deep_as_its_text(rt: HostRuntime) -> Result<(), Fail> {
    let depth = 60;
    let mut text = String::new(rt.alloc());
    let mut wanted = String::new(rt.alloc());
    for _ in 0..depth {
        text.push_str("(")?;
        wanted.push_str("(Nest ")?;
    }
    text.push_str("a")?;
    wanted.push_str("(Leaf Any:a)")?;
    for _ in 0..depth {
        text.push_str(")")?;
        wanted.push_str(")")?;
    }
    let mut sink = CleanSink::new(rt.alloc());
    let answer = print_first(rt.alloc(), ITEM, text.as_str(), &mut sink).ok_or("a tree")?;
    assert_eq!(rt; answer, Ok(()));
    assert_eq!(rt; sink.as_bytes(), wanted.as_bytes());
    Ok(())
}
