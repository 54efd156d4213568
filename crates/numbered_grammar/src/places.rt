//! Symbols by their names, to look a name up by its bytes.
ghost use Rattle.std.specs.Prelude.{◌≡◌, ◌<◌, ◌^◌, [], length, IfOk};
ghost use Rattle.numbered_grammar.specs.Places.{categories_from, named_symbols, entries_in};
ghost use Rattle.numbered_grammar.specs.Places.{HasOneEach, AddsSymbol, AddsKind, AddsAll};
ghost use Rattle.numbered_grammar.specs.Places.{GivesPlaces};

use indexmap::IndexMap;
use spec_grammar::Symbol;
use spec_lexing::KindDef;
use spec_text::Name;
use std::alloc::{AllocError, Global};

/// Adds the symbol by its name, whose bytes are copied, and tells whether the name had none.
fn add_symbol(
    alloc: Global,
    places: &mut IndexMap<Vec<u8>, Symbol>,
    name: &Name,
    symbol: Symbol,
) -> Result<bool, AllocError>
    ensures { IfOk result
        (AddsSymbol (entries_in places.old) (entries_in places.new) name.now symbol) }
{
    if places.contains_key(name.as_slice()) {
        return Ok(false);
    }
    let key = Vec::from_slice(alloc, name.as_slice())?;
    places.insert(key, symbol)?;
    Ok(true)
}

/// Adds the categories by their names, and tells whether no two have one name.
fn add_categories(
    alloc: Global,
    places: &mut IndexMap<Vec<u8>, Symbol>,
    names: &[Name],
) -> Result<bool, AllocError>
    requires few { length names.now < 2 ^ 16 }
    requires empty { entries_in places.old ≡ [] }
    ensures { IfOk result (AddsAll (entries_in places.new) (categories_from 0 names.now)) }
{
    for (number, name) in names.iter().enumerate() {
        if !add_symbol(alloc, places, name, Symbol::Category(number as u16))? {
            return Ok(false);
        }
    }
    Ok(true)
}

/// Adds the kind by its name, if it is no word, and tells whether the name had no symbol.
fn add_kind(
    alloc: Global,
    places: &mut IndexMap<Vec<u8>, Symbol>,
    kind: &KindDef,
    number: u16,
) -> Result<bool, AllocError>
    ensures { IfOk result
        (AddsKind (entries_in places.old) (entries_in places.new) kind.now number) }
{
    match kind {
        KindDef::Word(_) => Ok(true),
        KindDef::Token { name, .. } => add_symbol(alloc, places, name, Symbol::Kind(number)),
    }
}

/// Adds the kinds that are no words by their names, and tells whether no two symbols have one name.
fn add_kinds(
    alloc: Global,
    places: &mut IndexMap<Vec<u8>, Symbol>,
    names: &[Name],
    kinds: &[KindDef],
) -> Result<bool, AllocError>
    requires few { length kinds.now < 2 ^ 16 }
    requires categories { entries_in places.old ≡ categories_from 0 names.now }
    requires one_each { HasOneEach (categories_from 0 names.now) }
    ensures { IfOk result (AddsAll (entries_in places.new) (named_symbols names.now kinds.now)) }
{
    for (number, kind) in kinds.iter().enumerate() {
        if !add_kind(alloc, places, kind, number as u16)? {
            return Ok(false);
        }
    }
    Ok(true)
}

/// The symbol of each name, whose bytes are copied, and `None` where two symbols have one name.
pub(crate) fn symbol_places(
    alloc: Global,
    names: &[Name],
    kinds: &[KindDef],
) -> Result<Option<IndexMap<Vec<u8>, Symbol>>, AllocError>
    requires names { length names.now < 2 ^ 16 }
    requires kinds { length kinds.now < 2 ^ 16 }
    ensures { IfOk result (GivesPlaces names.now kinds.now) }
{
    let mut places = IndexMap::with_capacity(alloc, names.len())?;
    if !add_categories(alloc, &mut places, names)? {
        return Ok(None);
    }
    if !add_kinds(alloc, &mut places, names, kinds)? {
        return Ok(None);
    }
    Ok(Some(places))
}
