//! Charts of small texts, each span against a table worked out by hand.
ghost use Rattle.std.specs.Prelude.{◌≡◌, ◌<◌, ◌≤◌, length};

use super::samples::{BRACKETS, NOTHING, PAIRS, Sample, TRIPLES, grammar_of};
use binary_form::{Binary, binary};
use cell_sets::{Cell, ListCell};
use std::alloc::{AllocError, Global};
use std::test::*;
use valiant::Chart;

/// The symbols of one span, by its first token and its end.
type Row = (u32, u32, &'static [u16]);

/// The form and the chart of a text under a sample; `None` where memory ran out.
fn chart_of<C: Cell>(
    alloc: Global,
    sample: Sample,
    kinds: &[Option<u16>],
) -> Option<(Binary<C>, Chart<C>)>
    requires room { 65536 ≤ C.ROOM }
    requires few { length kinds.now ≤ 16384 }
{
    let grammar = grammar_of(alloc, sample)?;
    let form: Binary<C> = binary(alloc, &grammar).ok()?;
    let chart = Chart::of_kinds(alloc, &form, kinds).ok()?;
    Some((form, chart))
}

/// The symbols that a span has.
fn members_of<C: Cell>(
    alloc: Global,
    form: &Binary<C>,
    chart: &Chart<C>,
    i: u32,
    j: u32,
) -> Result<Vec<u16>, AllocError>
    requires order { i < j }
    requires within { j ≤ length chart.now.kinds }
{
    let mut members = Vec::new(alloc);
    for symbol in 0..form.symbol_count() as u16 {
        if chart.has(symbol, i, j) {
            members.push(symbol)?;
        }
    }
    Ok(members)
}

/// The symbols that the table has for a span: none where it has no row for it.
fn wanted(table: &'static [Row], i: u32, j: u32) -> &'static [u16] {
    for (first, end, symbols) in table {
        if (*first, *end) == (i, j) {
            return symbols;
        }
    }
    &[]
}

/// The end of the first span from token i that has not the symbols of the table, if there is one.
fn differs_at<C: Cell>(
    alloc: Global,
    form: &Binary<C>,
    chart: &Chart<C>,
    table: &'static [Row],
    i: u32,
) -> Result<Option<u32>, AllocError>
    requires { i < length chart.now.kinds }
{
    for last in i..chart.len() {
        let members = members_of(alloc, form, chart, i, last + 1)?;
        if members.as_slice() != wanted(table, i, last + 1) {
            return Ok(Some(last + 1));
        }
    }
    Ok(None)
}

/// The kinds of the tokens of a chart.
fn kinds_told<C: Cell>(alloc: Global, chart: &Chart<C>) -> Result<Vec<Option<u16>>, AllocError> {
    let mut kinds = Vec::new(alloc);
    for i in 0..chart.len() {
        kinds.push(chart.kind_at(i))?;
    }
    Ok(kinds)
}

const OPEN: Option<u16> = Some(0);

const CLOSE: Option<u16> = Some(1);

const A: Option<u16> = Some(0);

const STRAY: Option<u16> = None;

#[test]
fn each_span_has_just_the_symbols_that_derive_it(rt: HostRuntime) -> Result<(), Fail> {
    let cases: [(Sample, &[Option<u16>], &'static [Row]); 9] = [
        (BRACKETS, &[OPEN, OPEN, CLOSE, CLOSE], NESTED),
        (BRACKETS, &[CLOSE, OPEN], TURNED_ROUND),
        (TRIPLES, &[A, A, A, A, A], FIVE),
        (TRIPLES, &[A, A, STRAY, A, A], AROUND_A_STRAY_TOKEN),
        (PAIRS, &[A, A], SIDE_BY_SIDE),
        (PAIRS, &[STRAY, STRAY], NO_SPAN),
        (TRIPLES, &[], NO_SPAN),
        (NOTHING, &[], NO_SPAN),
        (NOTHING, &[A, STRAY, Some(65535)], NO_SPAN),
    ];
    for (sample, kinds, table) in cases {
        let (form, chart) = chart_of::<ListCell>(rt.alloc(), sample, kinds).ok_or("a chart")?;
        for i in 0..chart.len() {
            let end = differs_at(rt.alloc(), &form, &chart, table, i)?;
            assert_eq!(rt; end, None, "at {sample:?}, {kinds:?}, token {i}");
        }
    }
    Ok(())
}

const NO_SPAN: &[Row] = &[];

/// `( ( ) )`: the inner pair and the whole are S, and `( ) )` is what stands behind the first
/// bracket.
const NESTED: &[Row] = &[
    (0, 1, &[1]),
    (0, 4, &[0, 3]),
    (1, 2, &[1]),
    (1, 3, &[0, 3]),
    (1, 4, &[4]),
    (2, 3, &[2, 4, 5]),
    (3, 4, &[2, 4, 5]),
];

/// `) (`: each bracket by itself.
const TURNED_ROUND: &[Row] = &[(0, 1, &[2, 4, 5]), (1, 2, &[1])];

/// `a a`: A and nothing are S, but A and A are not.
const SIDE_BY_SIDE: &[Row] = &[(0, 1, &[0, 1, 3, 4, 6]), (1, 2, &[0, 1, 3, 4, 6])];

/// `a a a`: all three are S, and two are the last two of three.
const THREE: &[Row] = &[
    (0, 1, &[0, 1, 4, 5]),
    (0, 2, &[3]),
    (0, 3, &[0, 2, 4]),
    (1, 2, &[0, 1, 4, 5]),
    (1, 3, &[3]),
    (2, 3, &[0, 1, 4, 5]),
];

/// `a a a a a`: three and five tokens are S, two and four are the last two of three.
const FIVE: &[Row] = &[
    (0, 1, &[0, 1, 4, 5]),
    (0, 2, &[3]),
    (0, 3, &[0, 2, 4]),
    (0, 4, &[3]),
    (0, 5, &[0, 2, 4]),
    (1, 2, &[0, 1, 4, 5]),
    (1, 3, &[3]),
    (1, 4, &[0, 2, 4]),
    (1, 5, &[3]),
    (2, 3, &[0, 1, 4, 5]),
    (2, 4, &[3]),
    (2, 5, &[0, 2, 4]),
    (3, 4, &[0, 1, 4, 5]),
    (3, 5, &[3]),
    (4, 5, &[0, 1, 4, 5]),
];

/// `a a ? a a`: no span has the stray token.
const AROUND_A_STRAY_TOKEN: &[Row] = &[
    (0, 1, &[0, 1, 4, 5]),
    (0, 2, &[3]),
    (1, 2, &[0, 1, 4, 5]),
    (3, 4, &[0, 1, 4, 5]),
    (3, 5, &[3]),
    (4, 5, &[0, 1, 4, 5]),
];

#[test]
fn a_chart_keeps_the_kinds_of_its_tokens(rt: HostRuntime) -> Result<(), Fail> {
    let texts: [&[Option<u16>]; 4] = [&[], &[A], &[A, STRAY, Some(7)], &[STRAY, STRAY]];
    for text in texts {
        let (_, chart) = chart_of::<ListCell>(rt.alloc(), TRIPLES, text).ok_or("a chart")?;
        assert_eq!(rt; chart.len() as usize, text.len(), "at {text:?}");
        assert_eq!(rt;
            kinds_told(rt.alloc(), &chart)?.as_slice(),
            text,
            "at {text:?}"
        );
    }
    Ok(())
}

#[test]
fn a_leaf_has_no_tokens(rt: HostRuntime) -> Result<(), Fail> {
    let leaf: Chart<ListCell> = Chart::leaf();
    assert_eq!(rt; leaf.len(), 0);
    assert_eq!(rt; leaf.share(rt.alloc())?.len(), 0);
    Ok(())
}

#[test]
fn a_shared_chart_outlives_the_one_that_it_is_shared_from(rt: HostRuntime) -> Result<(), Fail> {
    let (form, chart) = chart_of::<ListCell>(rt.alloc(), TRIPLES, &[A, A, A]).ok_or("a chart")?;
    let shared = chart.share(rt.alloc())?;
    assert_eq!(rt; shared.len(), chart.len());
    drop(chart);
    assert_eq!(rt;
        kinds_told(rt.alloc(), &shared)?.as_slice(),
        [A, A, A].as_slice()
    );
    for i in 0..shared.len() {
        assert_eq!(rt;
            differs_at(rt.alloc(), &form, &shared, THREE, i)?,
            None,
            "at token {i}"
        );
    }
    Ok(())
}
