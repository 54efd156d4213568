//! The product of two cells: look-ups and unions alone.
ghost use Rattle.std.specs.Prelude.{◌≡◌, ◌+◌, ◌<◌, ◌≤◌, ◌↔◌, ℕ, length, Contains, IsTrue, IfOk};
ghost use Rattle.cell_sets.specs.Cells.{Adds};
ghost use Rattle.spec_text.specs.declared.limits.TheConstants.{MAX_SYMBOLS};
ghost use Rattle.binary_form.specs.Products.{AreBelow, HasNextItem, GoOnBelow, IsItemMet};
ghost use Rattle.binary_form.specs.Products.{IsNextBelow};
ghost use Rattle.binary_form.specs.Products.{ItemGives, LinksGoOnBelow, OneGives, SuffixGives};

use cell_sets::Cell;
use number_graph::Links;
use std::alloc::{AllocError, Global};

/// The least symbol of the cell that is not below this one, if it is below the count.
pub fn next_below<C: Cell>(cell: &C, from: u16, count: usize) -> Option<u16>
    ensures { IsNextBelow count (C.symbols cell.now) from result }
{
    let number = cell.next_from(from)?;
    if usize::from(number) < count {
        Some(number)
    } else {
        None
    }
}

/// Whether the cell has each symbol of the part. The symbols of the part are below the count.
fn has_all<C: Cell>(cell: &C, part: &C, count: usize) -> bool
    requires below { (n : ℕ) → Contains (C.symbols part.now) n → n < count }
    requires few { count ≤ MAX_SYMBOLS }
    requires room { count ≤ C.ROOM }
    ensures { IsTrue result
        → (n : ℕ) → Contains (C.symbols part.now) n → Contains (C.symbols cell.now) n }
{
    let mut from = 0;
    while let Some(symbol) = next_below(part, from, count) {
        if !cell.has(symbol) {
            return false;
        }
        from = symbol + 1;
    }
    true
}

/// The cell with the closure of the suffix, where it goes on with a symbol of the right cell. No
/// memory is taken where the cell has that closure.
fn with_suffix<C: Cell>(
    alloc: Global,
    closures: &[C],
    suffix: u16,
    right: &C,
    cell: C,
) -> Result<C, AllocError>
    requires below { suffix + 1 < length closures.now }
    requires closed { AreBelow C.symbols (length closures.now) closures.now }
    requires few { length closures.now ≤ MAX_SYMBOLS }
    requires room { length closures.now ≤ C.ROOM }
    ensures { IfOk result (λ new.
        Adds (SuffixGives C.symbols closures.now (C.symbols right.now) suffix)
        (C.symbols cell) (C.symbols new)) }
{
    if !right.has(suffix + 1) {
        return Ok(cell);
    }
    let closure = &closures[suffix as usize];
    if has_all(&cell, closure, closures.len()) {
        return Ok(cell);
    }
    cell.union(alloc, closure)
}

/// The cell with the closures of the suffixes that go on with a symbol of the right cell.
fn with_each_suffix<C: Cell>(
    alloc: Global,
    closures: &[C],
    suffixes: &[u16],
    right: &C,
    start: C,
) -> Result<C, AllocError>
    requires below { GoOnBelow (length closures.now) suffixes.now }
    requires closed { AreBelow C.symbols (length closures.now) closures.now }
    requires few { length closures.now ≤ MAX_SYMBOLS }
    requires room { length closures.now ≤ C.ROOM }
    ensures { IfOk result (λ new.
        Adds (OneGives (SuffixGives C.symbols closures.now (C.symbols right.now)) suffixes.now)
        (C.symbols start) (C.symbols new)) }
{
    let mut cell = start;
    for suffix in suffixes {
        cell = with_suffix(alloc, closures, *suffix, right, cell)?;
    }
    Ok(cell)
}

/// The cell with the closures of all suffixes that begin with a symbol of the left cell and go on
/// with one of the right cell.
pub fn product_of<C: Cell>(
    alloc: Global,
    closures: &[C],
    longer_suffixes: &Links,
    left: &C,
    right: &C,
    start: C,
) -> Result<C, AllocError>
    requires count { length longer_suffixes.now ≡ length closures.now }
    requires closed { AreBelow C.symbols (length closures.now) closures.now }
    requires below { LinksGoOnBelow (length closures.now) longer_suffixes.now }
    requires few { length closures.now ≤ MAX_SYMBOLS }
    requires room { length closures.now ≤ C.ROOM }
    ensures { IfOk result (λ cell.
        Adds (OneGives (ItemGives C.symbols closures.now longer_suffixes.now (C.symbols right.now))
        (C.symbols left.now)) (C.symbols start) (C.symbols cell)) }
{
    let mut cell = start;
    let mut from = 0;
    while let Some(item) = next_below(left, from, longer_suffixes.count()) {
        cell = with_each_suffix(alloc, closures, longer_suffixes.from(item), right, cell)?;
        from = item + 1;
    }
    Ok(cell)
}

/// Whether one of the suffixes goes on with a symbol of the right cell.
fn goes_on<C: Cell>(suffixes: &[u16], right: &C, count: usize) -> bool
    requires below { GoOnBelow count suffixes.now }
    requires few { count ≤ MAX_SYMBOLS }
    requires room { count ≤ C.ROOM }
    ensures { IsTrue result
        ↔ ((suffix : ℕ) × Contains suffixes.now suffix × HasNextItem (C.symbols right.now) suffix) }
{
    for suffix in suffixes {
        if right.has(*suffix + 1) {
            return true;
        }
    }
    false
}

/// Whether a suffix begins with a symbol of the left cell and goes on with one of the right cell.
pub fn is_met<C: Cell>(longer_suffixes: &Links, left: &C, right: &C) -> bool
    requires below { LinksGoOnBelow (length longer_suffixes.now) longer_suffixes.now }
    requires few { length longer_suffixes.now ≤ MAX_SYMBOLS }
    requires room { length longer_suffixes.now ≤ C.ROOM }
    ensures { IsTrue result ↔ ((item : ℕ) × Contains (C.symbols left.now) item
        × IsItemMet longer_suffixes.now (C.symbols right.now) item) }
{
    let mut from = 0;
    while let Some(item) = next_below(left, from, longer_suffixes.count()) {
        if goes_on(longer_suffixes.from(item), right, longer_suffixes.count()) {
            return true;
        }
        from = item + 1;
    }
    false
}
