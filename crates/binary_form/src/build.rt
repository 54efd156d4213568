//! Making the binary form of a grammar.
ghost use Rattle.std.specs.Prelude.{ℕ, ◌≡◌, ◌<◌, ◌≤◌, ◌↔◌, ◌⊎◌, Contains, IfOk};
ghost use Rattle.spec_grammar.specs.Grammars.{HasOwnSymbols, symbol_count};
ghost use Rattle.binary_form.specs.BinaryForm.{IsClosureOf, MakesBinary};
ghost use Rattle.binary_form.specs.Forms.{AreClosures};
ghost use Rattle.binary_form.specs.RowLinks.{AreUnitSteps};

use crate::fault::BinaryFault;
use crate::form::Binary;
use crate::left_sides::{left_symbols_of, partner_links};
use crate::nullable::nullable_numbers;
use crate::numbering::{first_suffixes, symbol_count};
use crate::rows::rows_of;
use crate::steps::{longer_suffixes_of, unit_steps};
use cell_sets::Cell;
use number_graph::{Links, reached_from};
use numbered_grammar::Grammar;
use spec_text::MAX_SYMBOLS;
use std::alloc::{AllocError, Global};

/// The cell of the numbers.
fn cell_of<C: Cell>(alloc: Global, numbers: &[u16]) -> Result<C, AllocError>
    requires room { (n : ℕ) → Contains numbers.now n → n < C.ROOM }
    ensures { IfOk result (λ cell. (n : ℕ) → Contains (C.symbols cell) n ↔ Contains numbers.now n) }
{
    let mut cell = C::empty();
    for number in numbers {
        cell.insert(alloc, *number)?;
    }
    Ok(cell)
}

/// What the symbol of this number reaches by unit steps.
fn closure_of<C: Cell>(
    alloc: Global,
    grammar: &Grammar,
    steps: &Links,
    number: u16,
) -> Result<C, AllocError>
    requires few { symbol_count grammar.now ≤ MAX_SYMBOLS }
    requires room { symbol_count grammar.now ≤ C.ROOM }
    requires steps { AreUnitSteps grammar.now steps.now }
    requires own_symbols { HasOwnSymbols grammar.now }
    requires below { number < symbol_count grammar.now }
    ensures { IfOk result (λ cell. IsClosureOf grammar.now number (C.symbols cell)) }
{
    let numbers = reached_from(alloc, steps, number)?;
    let cell = cell_of(alloc, numbers.as_slice())?;
    Ok(cell)
}

/// For each symbol what it reaches, by a search for each.
fn closures_of<C: Cell>(
    alloc: Global,
    grammar: &Grammar,
    steps: &Links,
) -> Result<Vec<C>, AllocError>
    requires few { symbol_count grammar.now ≤ MAX_SYMBOLS }
    requires room { symbol_count grammar.now ≤ C.ROOM }
    requires steps { AreUnitSteps grammar.now steps.now }
    requires own_symbols { HasOwnSymbols grammar.now }
    ensures { IfOk result (λ cells. AreClosures C.symbols grammar.now cells.items) }
{
    let mut closures = Vec::new(alloc);
    for number in 0..steps.count() as u16 {
        let closure = closure_of(alloc, grammar, steps, number)?;
        closures.push(closure)?;
    }
    Ok(closures)
}

/// Each rule of a grammar has symbols of the grammar: `Grammar` keeps it so.
fn rules_have_own_symbols(grammar: &Grammar)
    ensures { HasOwnSymbols grammar.now }
{
    let _ = grammar.rules();
}

/// The binary form of a grammar of at most 2,048 symbols.
fn form_of<C: Cell>(alloc: Global, grammar: &Grammar) -> Result<Binary<C>, AllocError>
    requires few { symbol_count grammar.now ≤ MAX_SYMBOLS }
    requires room { symbol_count grammar.now ≤ C.ROOM }
    ensures { IfOk result (λ binary. binary ≡ grammar.now) }
{
    let rows = rows_of(alloc, grammar)?;
    let nullable = nullable_numbers(alloc, grammar, rows.as_slice())?;
    let steps = unit_steps(alloc, grammar, rows.as_slice(), nullable.as_slice())?;
    let longer_suffixes = longer_suffixes_of(alloc, grammar, rows.as_slice())?;
    let partners = partner_links(alloc, grammar, rows.as_slice())?;
    let lefts = left_symbols_of(alloc, grammar, &longer_suffixes)?;
    let firsts = first_suffixes(alloc, grammar)?;
    rules_have_own_symbols(grammar);
    let closures = closures_of(alloc, grammar, &steps)?;
    Ok(Binary::of(
        grammar,
        firsts,
        nullable,
        closures,
        longer_suffixes,
        partners,
        lefts,
    ))
}

/// The binary form of the grammar, or that it has more than 2,048 symbols, which takes no memory to
/// find out. It looks at each item of the rules a few times, and for each symbol at what it reaches
/// by unit steps.
pub fn binary<C: Cell>(alloc: Global, grammar: &Grammar) -> Result<Binary<C>, BinaryFault>
    requires room { (symbol_count grammar.now ≤ C.ROOM) ⊎ (MAX_SYMBOLS < symbol_count grammar.now) }
    ensures { MakesBinary grammar.now result }
{
    let count = symbol_count(grammar);
    if count > MAX_SYMBOLS {
        return Err(BinaryFault::TooManySymbols { count });
    }
    form_of(alloc, grammar).map_err(|_| BinaryFault::Memory)
}
