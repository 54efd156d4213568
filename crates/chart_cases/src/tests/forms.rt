//! Small grammars in binary form, with numbers, closures and products by hand. Cells are called
//! through the trait, and are list cells.
ghost use Rattle.std.specs.Prelude.{◌≡◌, ◌<◌, ◌≤◌, length};
ghost use Rattle.binary_form.specs.BinaryForm.{MakesBinary};

use super::samples::{BRACKETS, NOTHING, PAIRS, Sample, TRIPLES, grammar_of, long_rule};
use binary_form::{Binary, BinaryFault, binary};
use cell_sets::{Cell, ListCell};
use numbered_grammar::{Grammar, Symbol};
use std::alloc::{AllocError, Global};
use std::test::*;

fn form_of<C: Cell>(alloc: Global, grammar: &Grammar) -> Result<Binary<C>, BinaryFault>
    requires { 65536 ≤ C.ROOM }
    ensures { MakesBinary grammar.now result }
{
    binary(alloc, grammar)
}

/// The binary form of a sample, `None` where memory ran out.
fn sample_form(alloc: Global, sample: Sample) -> Option<Binary<ListCell>> {
    let grammar = grammar_of(alloc, sample)?;
    form_of(alloc, &grammar).ok()
}

/// The symbols of a cell, in rising order.
fn members_of<C: Cell>(alloc: Global, form: &Binary<C>, cell: &C) -> Result<Vec<u16>, AllocError> {
    let mut members = Vec::new(alloc);
    for symbol in 0..form.symbol_count() as u16 {
        if cell.has(symbol) {
            members.push(symbol)?;
        }
    }
    Ok(members)
}

/// The cell of these symbols.
fn cell_of<C: Cell>(alloc: Global, form: &Binary<C>, symbols: &[u16]) -> Result<C, AllocError> {
    let mut cell = C::empty();
    for symbol in symbols {
        if u32::from(*symbol) < form.symbol_count() {
            cell.insert(alloc, *symbol)?;
        }
    }
    Ok(cell)
}

/// The symbols of the product of the cells of these symbols, and whether the cells meet.
fn product_of<C: Cell>(
    alloc: Global,
    form: &Binary<C>,
    left: &[u16],
    right: &[u16],
) -> Result<(Vec<u16>, bool), AllocError> {
    let left: C = cell_of(alloc, form, left)?;
    let right: C = cell_of(alloc, form, right)?;
    let product: C = form.product(alloc, &left, &right)?;
    Ok((
        members_of(alloc, form, &product)?,
        form.meets(&left, &right),
    ))
}

/// The symbols of each closure, one after another.
fn closures_of<C: Cell>(alloc: Global, form: &Binary<C>) -> Result<Vec<Vec<u16>>, AllocError> {
    let mut closures = Vec::new(alloc);
    for symbol in 0..form.symbol_count() as u16 {
        closures.push(members_of(alloc, form, form.up(symbol))?)?;
    }
    Ok(closures)
}

fn nullable_of<C: Cell>(alloc: Global, form: &Binary<C>) -> Result<Vec<bool>, AllocError> {
    let mut flags = Vec::new(alloc);
    for symbol in 0..form.symbol_count() as u16 {
        flags.push(form.nullable(symbol))?;
    }
    Ok(flags)
}

/// The number of each category and kind.
fn plain_numbers<C: Cell>(
    alloc: Global,
    form: &Binary<C>,
    grammar: &Grammar,
) -> Result<Vec<u16>, AllocError>
    requires { form.now ≡ grammar.now }
{
    let mut numbers = Vec::new(alloc);
    for c in 0..grammar.category_count() {
        numbers.push(form.symbol_of(Symbol::Category(c)))?;
    }
    for k in 0..grammar.kind_count() {
        numbers.push(form.symbol_of(Symbol::Kind(k)))?;
    }
    Ok(numbers)
}

/// The number of each of the first 16 suffixes of a rule.
fn suffix_numbers<C: Cell>(
    form: &Binary<C>,
    grammar: &Grammar,
    r: u16,
    numbers: &mut Vec<u16>,
) -> Result<(), AllocError>
    requires form { form.now ≡ grammar.now }
    requires rule { r < length grammar.now.rules }
{
    for p in 0..16 {
        if usize::from(p) < grammar.rule(r).items.len() {
            numbers.push(form.suffix_of(r, p))?;
        }
    }
    Ok(())
}

/// The numbers of categories and kinds, and those of the suffixes.
fn numbers_of<C: Cell>(
    alloc: Global,
    form: &Binary<C>,
    grammar: &Grammar,
) -> Result<(Vec<u16>, Vec<u16>), AllocError>
    requires { form.now ≡ grammar.now }
{
    let mut suffixes = Vec::new(alloc);
    for r in 0..grammar.rule_count() {
        suffix_numbers(form, grammar, r, &mut suffixes)?;
    }
    Ok((plain_numbers(alloc, form, grammar)?, suffixes))
}

#[test]
fn a_symbol_reaches_itself_and_what_unit_steps_lead_to(rt: HostRuntime) -> Result<(), Fail> {
    let cases: [(Sample, &[&[u16]]); 4] = [
        (
            TRIPLES,
            &[&[0, 4], &[0, 1, 4, 5], &[0, 2, 4], &[3], &[4], &[0, 4, 5]],
        ),
        (BRACKETS, &[&[0], &[1], &[2, 4, 5], &[0, 3], &[4], &[4, 5]]),
        (
            PAIRS,
            &[
                &[0],
                &[0, 1, 4],
                &[0, 2, 4, 5],
                &[0, 1, 3, 4, 6],
                &[0, 4],
                &[0, 4, 5],
                &[0, 1, 4, 6],
            ],
        ),
        (NOTHING, &[]),
    ];
    for (sample, want) in cases {
        let form = sample_form(rt.alloc(), sample).ok_or("a form")?;
        let closures = closures_of(rt.alloc(), &form)?;
        assert_eq!(rt; closures.len(), want.len(), "at {sample:?}");
        for (symbol, (closure, want)) in closures.iter().zip(want.iter()).enumerate() {
            assert_eq!(rt; closure.as_slice(), *want, "at {sample:?}, {symbol}");
        }
    }
    Ok(())
}

#[test]
fn nullable_symbols_are_those_that_derive_nothing(rt: HostRuntime) -> Result<(), Fail> {
    let cases: [(Sample, &[bool]); 4] = [
        (TRIPLES, &[false, false, false, false, false, false]),
        (BRACKETS, &[true, false, false, false, false, false]),
        (PAIRS, &[true, true, true, false, true, true, false]),
        (NOTHING, &[]),
    ];
    for (sample, want) in cases {
        let form = sample_form(rt.alloc(), sample).ok_or("a form")?;
        assert_eq!(rt;
            nullable_of(rt.alloc(), &form)?.as_slice(),
            want,
            "at {sample:?}"
        );
    }
    Ok(())
}

#[test]
fn a_token_is_what_its_kind_reaches_and_a_stray_token_is_nothing(
    rt: HostRuntime,
) -> Result<(), Fail> {
    let cases: [(Sample, Option<u16>, &[u16]); 11] = [
        (TRIPLES, Some(0), &[0, 1, 4, 5]),
        (TRIPLES, Some(1), &[]),
        (TRIPLES, None, &[]),
        (BRACKETS, Some(0), &[1]),
        (BRACKETS, Some(1), &[2, 4, 5]),
        (BRACKETS, Some(2), &[]),
        (BRACKETS, Some(65535), &[]),
        (PAIRS, Some(0), &[0, 1, 3, 4, 6]),
        (PAIRS, None, &[]),
        (NOTHING, Some(0), &[]),
        (NOTHING, None, &[]),
    ];
    for (sample, kind, want) in cases {
        let form = sample_form(rt.alloc(), sample).ok_or("a form")?;
        let cell = members_of(rt.alloc(), &form, form.token_cell(kind))?;
        assert_eq!(rt; cell.as_slice(), want, "at {sample:?}, {kind:?}");
    }
    Ok(())
}

#[test]
fn a_product_is_made_by_items_and_the_suffixes_behind_them(rt: HostRuntime) -> Result<(), Fail> {
    let cases: [(Sample, &[u16], &[u16], &[u16]); 17] = [
        (TRIPLES, &[0, 1, 4, 5], &[0, 1, 4, 5], &[3]),
        (TRIPLES, &[0, 1, 4, 5], &[3], &[0, 2, 4]),
        (TRIPLES, &[3], &[0, 1, 4, 5], &[]),
        (TRIPLES, &[0], &[3, 4], &[0, 2, 3, 4]),
        (TRIPLES, &[0], &[0], &[]),
        (TRIPLES, &[1], &[3, 4], &[]),
        (TRIPLES, &[], &[3], &[]),
        (TRIPLES, &[0], &[], &[]),
        (BRACKETS, &[1], &[2, 4, 5], &[0, 3]),
        (BRACKETS, &[1], &[4], &[0, 3]),
        (BRACKETS, &[0], &[2, 4, 5], &[4]),
        (BRACKETS, &[2, 4, 5], &[1], &[]),
        (BRACKETS, &[0, 3], &[2, 4, 5], &[4]),
        (BRACKETS, &[0, 1], &[4, 5], &[0, 3, 4]),
        (PAIRS, &[0, 1, 3, 4, 6], &[0, 2, 4, 5], &[0, 4]),
        (PAIRS, &[2], &[5], &[]),
        (NOTHING, &[], &[], &[]),
    ];
    for (sample, left, right, want) in cases {
        let form = sample_form(rt.alloc(), sample).ok_or("a form")?;
        let (product, meets) = product_of(rt.alloc(), &form, left, right)?;
        assert_eq!(rt;
            product.as_slice(),
            want,
            "at {sample:?}, {left:?}, {right:?}"
        );
        assert_eq!(rt;
            meets,
            !want.is_empty(),
            "at {sample:?}, {left:?}, {right:?}"
        );
    }
    Ok(())
}

#[test]
fn an_item_is_left_of_the_suffix_behind_it(rt: HostRuntime) -> Result<(), Fail> {
    let cases: [(Sample, &[u16], &[u16]); 10] = [
        (TRIPLES, &[3], &[0]),
        (TRIPLES, &[0, 3, 4], &[0]),
        (TRIPLES, &[0, 1, 2, 5], &[]),
        (BRACKETS, &[4], &[1]),
        (BRACKETS, &[5], &[0]),
        (BRACKETS, &[2, 4, 5], &[0, 1]),
        (BRACKETS, &[0, 1, 2, 3], &[]),
        (PAIRS, &[0, 2, 4, 5], &[1]),
        (PAIRS, &[6], &[]),
        (NOTHING, &[], &[]),
    ];
    for (sample, right, want) in cases {
        let form = sample_form(rt.alloc(), sample).ok_or("a form")?;
        let right: ListCell = cell_of(rt.alloc(), &form, right)?;
        let partners: ListCell = form.left_partners(rt.alloc(), &right)?;
        assert_eq!(rt; partners.as_slice(), want, "at {sample:?}, {want:?}");
    }
    Ok(())
}

#[test]
fn items_with_an_item_behind_are_on_the_left(rt: HostRuntime) -> Result<(), Fail> {
    let cases: [(Sample, &[u16]); 4] = [
        (TRIPLES, &[0]),
        (BRACKETS, &[0, 1]),
        (PAIRS, &[1]),
        (NOTHING, &[]),
    ];
    for (sample, want) in cases {
        let form = sample_form(rt.alloc(), sample).ok_or("a form")?;
        assert_eq!(rt; form.left_symbols().as_slice(), want, "at {sample:?}");
    }
    Ok(())
}

#[test]
fn tokens_meet_where_their_product_is_not_empty(rt: HostRuntime) -> Result<(), Fail> {
    for sample in [TRIPLES, BRACKETS, PAIRS, NOTHING] {
        let form = sample_form(rt.alloc(), sample).ok_or("a form")?;
        for pair in 0..9 {
            let left = form.token_cell(Some(pair / 3));
            let right = form.token_cell(Some(pair % 3));
            let product: ListCell = form.product(rt.alloc(), left, right)?;
            assert_eq!(rt;
                form.meets(left, right),
                !product.is_empty(),
                "at {sample:?}, {pair}"
            );
        }
    }
    Ok(())
}

#[test]
fn symbols_are_numbered_categories_first_and_suffixes_last(rt: HostRuntime) -> Result<(), Fail> {
    let grammar = grammar_of(rt.alloc(), PAIRS).ok_or("a grammar")?;
    let form: Binary<ListCell> = match form_of(rt.alloc(), &grammar) {
        Ok(form) => form,
        Err(_) => return Err("a form".into()),
    };
    let (plain, suffixes) = numbers_of(rt.alloc(), &form, &grammar)?;
    assert_eq!(rt; plain.as_slice(), [0, 1, 2, 3].as_slice());
    assert_eq!(rt; suffixes.as_slice(), [4, 5, 6].as_slice());
    Ok(())
}

/// How many symbols the form of a long rule has, or why there is none.
fn long_form(alloc: Global, count: usize) -> Option<Result<u32, BinaryFault>> {
    let grammar = long_rule(alloc, count)?;
    let form: Result<Binary<ListCell>, BinaryFault> = form_of(alloc, &grammar);
    Some(form.map(|form| form.symbol_count()))
}

#[test]
fn a_form_has_2048_symbols_at_most(rt: HostRuntime) -> Result<(), Fail> {
    for (items, want) in [(0, 1), (2, 3), (2046, 2047), (2047, 2048)] {
        let count = long_form(rt.alloc(), items).ok_or("a grammar")?;
        assert!(rt; matches!(count, Ok(found) if found == want), "at {items}");
    }
    for (items, want) in [(2048, 2049), (3000, 3001)] {
        let fault = long_form(rt.alloc(), items).ok_or("a grammar")?;
        assert!(rt;
            matches!(fault, Err(BinaryFault::TooManySymbols { count }) if count == want),
            "at {items}"
        );
    }
    Ok(())
}
