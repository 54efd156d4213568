//! Places in lists in rising order: where a symbol stands, or where it would stand.
ghost use Rattle.std.specs.Prelude.{◌≡◌, ◌↔◌, length, IsTrue, IfOk, OnOk, OnErr};
ghost use Rattle.std.specs.List.{Contains};
ghost use Rattle.cell_sets.specs.Cells.{IsRising, AddsSymbol, IsNextFrom};
ghost use Rattle.cell_sets.specs.Places.{IsGapAt, IsPlaceOf};

use std::alloc::AllocError;

/// Whether the symbol is above all that are there.
fn is_above_all(items: &[u16], symbol: u16) -> bool
    requires { IsRising items.now }
    ensures { IsTrue result → IsGapAt items.now symbol (length items.now) }
{
    match items.last() {
        Some(last) => *last < symbol,
        None => true,
    }
}

/// The place of the symbol, or else the place where it would stand. A symbol that is above all
/// others is compared with the last one alone.
fn place_of(items: &[u16], symbol: u16) -> Result<usize, usize>
    requires { IsRising items.now }
    ensures { IsPlaceOf items.now symbol result }
{
    if is_above_all(items, symbol) {
        return Err(items.len());
    }
    items.binary_search(&symbol)
}

pub(crate) fn has_in(items: &[u16], symbol: u16) -> bool
    requires { IsRising items.now }
    ensures { IsTrue result ↔ Contains items.now symbol }
{
    place_of(items, symbol).is_ok()
}

pub(crate) fn next_in(items: &[u16], symbol: u16) -> Option<u16>
    requires { IsRising items.now }
    ensures { IsNextFrom items.now symbol result }
{
    match place_of(items, symbol) {
        Ok(_) => Some(symbol),
        Err(at) => items.get(at).copied(),
    }
}

pub(crate) fn insert_into(items: &mut Vec<u16>, symbol: u16) -> Result<bool, AllocError>
    requires { IsRising items.old.items }
    ensures ok { OnOk result (AddsSymbol items.old.items items.new.items symbol) }
    ensures new { IfOk result (λ new. IsTrue new ↔ (Contains items.old.items symbol → ⊥)) }
    ensures err { OnErr result (items.new.items ≡ items.old.items) }
    ensures rising { IsRising items.new.items }
{
    match place_of(items.as_slice(), symbol) {
        Ok(_) => Ok(false),
        Err(at) => {
            items.insert(at, symbol)?;
            Ok(true)
        }
    }
}
