//! What stands left in the rules of the binary form.
ghost use Rattle.std.specs.Prelude.{◌≡◌, ℕ, ◌<◌, ◌≤◌, ◌↔◌, ◌^◌, length, Contains, IsTrue};
ghost use Rattle.std.specs.Prelude.{IfOk, OnOk};
ghost use Rattle.cell_sets.specs.Cells.{Adds, IsUnion};
ghost use Rattle.number_graph.specs.Graphs.{HasLink, AreLinksWithin};
ghost use Rattle.spec_grammar.specs.Grammars.{symbol_count};
ghost use Rattle.spec_text.specs.declared.limits.TheConstants.{MAX_SYMBOLS};
ghost use Rattle.binary_form.specs.BinaryForm.{AreLeftSymbols};
ghost use Rattle.binary_form.specs.LeftSides.{ArePartnerLinks};
ghost use Rattle.binary_form.specs.LongerSuffixes.{AreLongerSuffixes};
ghost use Rattle.binary_form.specs.Products.{OneGives};
ghost use Rattle.binary_form.specs.Rows.{AreSuffixRows};

use crate::numbering::plain_count;
use crate::product::next_below;
use crate::rows::SuffixRow;
use cell_sets::Cell;
use number_graph::Links;
use numbered_grammar::Grammar;
use std::alloc::{AllocError, Global};

/// What is left of each suffix in the rules of the binary form: the number of a suffix that has an
/// item before it is linked to that of the item.
pub fn partner_links(
    alloc: Global,
    grammar: &Grammar,
    rows: &[SuffixRow],
) -> Result<Links, AllocError>
    requires few { symbol_count grammar.now < 2 ^ 16 }
    requires rows { AreSuffixRows grammar.now rows.now }
    ensures { IfOk result (ArePartnerLinks grammar.now) }
{
    let first = plain_count(grammar);
    let mut links = Links::new(alloc, first as usize + rows.len())?;
    for (number, row) in rows.iter().enumerate() {
        links.add_if(!row.is_last, first + number as u16 + 1, row.item)?;
    }
    Ok(links)
}

/// The cell with these numbers too.
fn with_numbers<C: Cell>(alloc: Global, numbers: &[u16], start: C) -> Result<C, AllocError>
    requires room { (n : ℕ) → Contains numbers.now n → n < C.ROOM }
    ensures { IfOk result (λ cell. IsUnion (C.symbols start) numbers.now (C.symbols cell)) }
{
    let mut cell = start;
    for number in numbers {
        cell.insert(alloc, *number)?;
    }
    Ok(cell)
}

/// What the numbers of the cell are linked to.
pub fn linked_from<C: Cell>(alloc: Global, links: &Links, cell: &C) -> Result<C, AllocError>
    requires within { AreLinksWithin links.now }
    requires few { length links.now ≤ MAX_SYMBOLS }
    requires room { length links.now ≤ C.ROOM }
    ensures { IfOk result (λ linked. (n : ℕ) → Contains (C.symbols linked) n
        ↔ OneGives (HasLink links.now) (C.symbols cell.now) n) }
{
    let mut linked = C::empty();
    let mut from = 0;
    while let Some(number) = next_below(cell, from, links.count()) {
        linked = with_numbers(alloc, links.from(number), linked)?;
        from = number + 1;
    }
    Ok(linked)
}

/// Whether the number is linked to some other.
fn is_linked(links: &Links, number: u16) -> bool
    requires { number < length links.now }
    ensures { IsTrue result ↔ ((to : ℕ) × HasLink links.now number to) }
{
    !links.from(number).is_empty()
}

/// Adds the number where the test holds.
fn insert_if<C: Cell>(
    alloc: Global,
    cell: &mut C,
    test: bool,
    number: u16,
) -> Result<(), AllocError>
    requires { number < C.ROOM }
    ensures { OnOk result (Adds (λ n. IsTrue test × (n ≡ number))
        (C.symbols cell.old) (C.symbols cell.new)) }
{
    if test {
        cell.insert(alloc, number)?;
    }
    Ok(())
}

/// The symbols that are on the left in some rule: the items that begin a longer suffix.
pub fn left_symbols_of<C: Cell>(
    alloc: Global,
    grammar: &Grammar,
    longer_suffixes: &Links,
) -> Result<C, AllocError>
    requires few { symbol_count grammar.now ≤ MAX_SYMBOLS }
    requires room { symbol_count grammar.now ≤ C.ROOM }
    requires longer_suffixes { AreLongerSuffixes grammar.now longer_suffixes.now }
    ensures { IfOk result (λ cell. AreLeftSymbols grammar.now (C.symbols cell)) }
{
    let mut cell = C::empty();
    for number in 0..longer_suffixes.count() as u16 {
        insert_if(alloc, &mut cell, is_linked(longer_suffixes, number), number)?;
    }
    Ok(cell)
}
