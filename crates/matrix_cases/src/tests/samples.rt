//! A grammar by which cells are multiplied, and the symbols of a matrix.
use binary_form::{Binary, binary};
use cell_sets::ListCell;
use numbered_grammar::{Grammar, Items, KindDef, Label, LexiconParts, Name, Rule, Symbol};
use quad_mat::{Mat, product};
use std::alloc::{AllocError, Global};

const S: Symbol = Symbol::Category(0);

const A: Symbol = Symbol::Kind(0);

fn rule(alloc: Global, items: &[Symbol]) -> Result<Rule, AllocError> {
    Ok(Rule {
        label: Label::Wild,
        category: 0,
        items: Items::from_slice(alloc, items)?,
    })
}

/// `S ::= S S S`, `S ::= a`: S is 0, a is 1, and the suffixes are 2, 3 and 4, and 5. `None` where
/// memory ran out.
fn triples(alloc: Global) -> Option<Binary<ListCell>> {
    let rules = vec![in alloc; rule(alloc, &[S, S, S]).ok()?, rule(alloc, &[A]).ok()?].ok()?;
    let names = vec![in alloc; Name::of(Vec::new(alloc))].ok()?;
    let kinds = vec![in alloc; KindDef::Word(Name::of(Vec::new(alloc)))].ok()?;
    let lexicon = LexiconParts::of_kinds(alloc, kinds);
    let grammar = Grammar::of_rules(alloc, rules, names, lexicon).ok()??;
    binary(alloc, &grammar).ok()
}

/// The product of two matrices by the triples; `None` where there is no memory, or the middle does
/// not fit.
pub fn product_of(alloc: Global, a: &Mat<ListCell>, b: &Mat<ListCell>) -> Option<Mat<ListCell>> {
    let form = triples(alloc)?;
    if a.cols() != b.rows() {
        return None;
    }
    product(alloc, &form, a, b).ok()
}

/// The symbols at a place, none outside.
pub fn symbols_at(mat: &Mat<ListCell>, i: u32, j: u32) -> &[u16] {
    if i >= mat.rows() {
        return &[];
    }
    if j >= mat.cols() {
        return &[];
    }
    match mat.get(i, j) {
        Some(cell) => cell.as_slice(),
        None => &[],
    }
}
