//! First trees of small grammars, with their nodes by hand.
mod prints;
mod samples;

ghost use Rattle.std.specs.Prelude.{◌↔◌, IfSome, IsTrue};
ghost use Rattle.spec_grammar.specs.Grammars.{IsSymbolOf};
ghost use Rattle.first_tree.specs.Answers.{TellsFirst};

use binary_form::{Binary, binary};
use cell_sets::ListCell;
use first_tree::{First, first};
use numbered_grammar::{Grammar, Symbol};
use samples::{LISTS, NULLABLES, PAIRS, SIBLINGS, SUMS, Sample, TRIPLES, TWINS, grammar_of};
use std::alloc::Global;
use std::test::*;
use valiant::Chart;

/// A node by its rule, its kind, its span and the number of its children.
type Node = (Option<u16>, u16, u32, u32, u16);

/// A symbol and a span.
type Question = (Symbol, u32, u32);

fn is_own(grammar: &Grammar, symbol: Symbol) -> bool
    ensures { IsTrue result ↔ IsSymbolOf grammar.now symbol }
{
    match symbol {
        Symbol::Category(c) => c < grammar.category_count(),
        Symbol::Kind(k) => k < grammar.kind_count(),
    }
}

/// The answer of `first`; `None` where memory ran out, or the question is none of the grammar and
/// the text.
fn answer_of(
    alloc: Global,
    grammar: &Grammar,
    kinds: &[Option<u16>],
    question: Question,
) -> Option<First>
    ensures { IfSome result (TellsFirst grammar.now.rules kinds.now question.0 question.1
        question.2) }
{
    let (symbol, i, j) = question;
    if kinds.len() > 16384 || !is_own(grammar, symbol) {
        return None;
    }
    let form: Binary<ListCell> = binary(alloc, grammar).ok()?;
    let chart = Chart::of_kinds(alloc, &form, kinds).ok()?;
    if j < i || chart.len() < j {
        return None;
    }
    first(alloc, &chart, &form, grammar, symbol, i, j).ok()
}

/// The nodes of the first tree, if there is one that is not too large.
fn nodes_of(alloc: Global, answer: First) -> Option<Vec<Node>> {
    let First::Tree(tree) = answer else {
        return None;
    };
    let mut nodes = Vec::new(alloc);
    for node in tree.nodes() {
        nodes
            .push((node.rule, node.kind, node.first, node.end, node.children))
            .ok()?;
    }
    Some(nodes)
}

const S: Symbol = Symbol::Category(0);

const A: Symbol = Symbol::Category(1);

const FIRST: Option<u16> = Some(0);

const SECOND: Option<u16> = Some(1);

const NUMBER: Option<u16> = Some(4);

/// A grammar, the kinds of a text, what is asked, and the nodes of the first tree.
type Case = (Sample, &'static [Option<u16>], Question, &'static [Node]);

const CASES: &[Case] = &[
    (
        TWINS,
        &[FIRST, FIRST, FIRST, FIRST],
        (S, 0, 4),
        NESTED_TO_THE_RIGHT,
    ),
    (
        TRIPLES,
        &[FIRST, FIRST, FIRST, FIRST, FIRST],
        (S, 0, 5),
        LAST_OF_THREE,
    ),
    (
        PAIRS,
        &[FIRST],
        (S, 1, 1),
        &[
            (Some(0), 0, 1, 1, 2),
            (Some(1), 0, 1, 1, 0),
            (Some(2), 0, 1, 1, 0),
        ],
    ),
    (
        PAIRS,
        &[FIRST],
        (S, 0, 1),
        &[
            (Some(0), 0, 0, 1, 2),
            (Some(3), 0, 0, 1, 1),
            (None, 0, 0, 1, 0),
            (Some(2), 0, 1, 1, 0),
        ],
    ),
    (
        NULLABLES,
        &[FIRST],
        (S, 1, 1),
        &[(Some(1), 0, 1, 1, 1), (Some(3), 0, 1, 1, 0)],
    ),
    (
        NULLABLES,
        &[FIRST],
        (S, 0, 1),
        &[
            (Some(0), 0, 0, 1, 2),
            (None, 0, 0, 1, 0),
            (Some(1), 0, 1, 1, 1),
            (Some(3), 0, 1, 1, 0),
        ],
    ),
    (
        SIBLINGS,
        &[FIRST],
        (S, 0, 1),
        &[
            (Some(0), 0, 0, 1, 2),
            (Some(1), 0, 0, 0, 0),
            (Some(3), 0, 0, 1, 1),
            (None, 0, 0, 1, 0),
        ],
    ),
    (
        SIBLINGS,
        &[FIRST, FIRST],
        (S, 0, 2),
        &[
            (Some(0), 0, 0, 2, 2),
            (Some(2), 0, 0, 1, 1),
            (None, 0, 0, 1, 0),
            (Some(3), 0, 1, 2, 1),
            (None, 0, 1, 2, 0),
        ],
    ),
    (LISTS, &[], (A, 0, 0), &[(Some(1), 0, 0, 0, 0)]),
    (
        LISTS,
        &[FIRST, SECOND, FIRST, SECOND],
        (A, 0, 4),
        TWO_STATEMENTS,
    ),
    (
        SUMS,
        &[NUMBER, FIRST, NUMBER, SECOND, NUMBER],
        (S, 0, 5),
        PRODUCT_IN_A_SUM,
    ),
    (
        SUMS,
        &[NUMBER, FIRST],
        (Symbol::Kind(0), 1, 2),
        &[(None, 0, 1, 2, 0)],
    ),
];

#[test]
fn a_derived_span_has_its_first_tree(rt: HostRuntime) -> Result<(), Fail> {
    for (sample, kinds, question, wanted) in CASES.iter().copied() {
        let grammar = grammar_of(rt.alloc(), sample).ok_or("a grammar")?;
        let answer = answer_of(rt.alloc(), &grammar, kinds, question).ok_or("an answer")?;
        let nodes = nodes_of(rt.alloc(), answer).ok_or("a tree")?;
        assert_eq!(rt; nodes.as_slice(), wanted, "at {sample:?}, {question:?}");
    }
    Ok(())
}

/// `a a a a`: each pair is one token and the rest.
const NESTED_TO_THE_RIGHT: &[Node] = &[
    (Some(0), 0, 0, 4, 2),
    (Some(1), 0, 0, 1, 1),
    (None, 0, 0, 1, 0),
    (Some(0), 0, 1, 4, 2),
    (Some(1), 0, 1, 2, 1),
    (None, 0, 1, 2, 0),
    (Some(0), 0, 2, 4, 2),
    (Some(1), 0, 2, 3, 1),
    (None, 0, 2, 3, 0),
    (Some(1), 0, 3, 4, 1),
    (None, 0, 3, 4, 0),
];

/// `a a a a a`: one token, one token, and three.
const LAST_OF_THREE: &[Node] = &[
    (Some(0), 0, 0, 5, 3),
    (Some(1), 0, 0, 1, 1),
    (None, 0, 0, 1, 0),
    (Some(1), 0, 1, 2, 1),
    (None, 0, 1, 2, 0),
    (Some(0), 0, 2, 5, 3),
    (Some(1), 0, 2, 3, 1),
    (None, 0, 2, 3, 0),
    (Some(1), 0, 3, 4, 1),
    (None, 0, 3, 4, 0),
    (Some(1), 0, 4, 5, 1),
    (None, 0, 4, 5, 0),
];

/// `skip ; skip ;`: each list is a statement, its semicolon, and the list behind it.
const TWO_STATEMENTS: &[Node] = &[
    (Some(2), 0, 0, 4, 3),
    (Some(0), 0, 0, 1, 1),
    (None, 0, 0, 1, 0),
    (None, 1, 1, 2, 0),
    (Some(2), 0, 2, 4, 3),
    (Some(0), 0, 2, 3, 1),
    (None, 0, 2, 3, 0),
    (None, 1, 3, 4, 0),
    (Some(1), 0, 4, 4, 0),
];

/// `1 + 2 * 3`: the sum of a number and a product.
const PRODUCT_IN_A_SUM: &[Node] = &[
    (Some(0), 0, 0, 5, 3),
    (Some(3), 0, 0, 1, 1),
    (Some(4), 0, 0, 1, 1),
    (Some(2), 0, 0, 1, 1),
    (None, 4, 0, 1, 0),
    (None, 0, 1, 2, 0),
    (Some(1), 0, 2, 5, 3),
    (Some(4), 0, 2, 3, 1),
    (Some(2), 0, 2, 3, 1),
    (None, 4, 2, 3, 0),
    (None, 1, 3, 4, 0),
    (Some(2), 0, 4, 5, 1),
    (None, 4, 4, 5, 0),
];

#[test]
fn a_span_that_is_not_derived_has_none(rt: HostRuntime) -> Result<(), Fail> {
    let cases: [(Sample, &[Option<u16>], Question); 3] = [
        (PAIRS, &[FIRST], (Symbol::Category(2), 0, 1)),
        (TRIPLES, &[FIRST, FIRST], (S, 0, 2)),
        (TWINS, &[FIRST, None], (S, 0, 2)),
    ];
    for (sample, kinds, question) in cases {
        let grammar = grammar_of(rt.alloc(), sample).ok_or("a grammar")?;
        let answer = answer_of(rt.alloc(), &grammar, kinds, question).ok_or("an answer")?;
        assert!(rt;
            matches!(answer, First::Nothing),
            "at {sample:?}, {question:?}"
        );
    }
    Ok(())
}
