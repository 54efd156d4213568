//! The symbol that is asked for where none is named.
ghost use Rattle.std.specs.Prelude.{◌≡◌, ◌<◌, ◌^◌, ◌+◌, [], ◌∷◌, length, IfOk};
ghost use Rattle.std.specs.Option.{option_map};
ghost use Rattle.spec_lbnf.specs.Expansion.{category_text, rules_of};
ghost use Rattle.spec_lbnf.specs.Expansion.{first_entry, first_category, entry_text};
ghost use Rattle.spec_lbnf.specs.Expansion.{named_symbol};
ghost use Rattle.lbnf_grammar.specs.Tables.{shown};

use crate::expanded_def::ExpandedDef;
use crate::numbering::category_symbol;
use crate::tables::Tables;
use spec_grammar::Symbol;
use spec_lbnf::{CatName, Def, RawRule};
use std::alloc::{AllocError, Global};

/// The first category of a definition of entry points.
fn entry_of(def: &Def) -> Option<&CatName>
    ensures { option_map (λ cat. category_text cat.now) result ≡ first_entry (def.now ∷ []) }
{
    if let Def::Entry(cats) = def {
        cats.as_slice().first()
    } else {
        None
    }
}

/// The first category of the first definition of entry points.
fn first_entry<'a, 'd>(defs: &'a [ExpandedDef<'d>]) -> Option<&'a CatName>
    ensures { option_map (λ cat. category_text cat.now) result ≡ first_entry defs.now }
{
    for def in defs {
        if let Some(cat) = entry_of(def.def()) {
            return Some(cat);
        }
    }
    None
}

/// The category of the first of the rules.
fn category_of_first(rules: &[RawRule]) -> Option<&CatName>
    ensures { option_map (λ cat. category_text cat.now) result ≡ first_category rules.now }
{
    Some(&rules.first()?.cat)
}

/// The category of the first rule.
fn first_category<'a, 'd>(defs: &'a [ExpandedDef<'d>]) -> Option<&'a CatName>
    ensures { option_map (λ cat. category_text cat.now) result
        ≡ first_category (rules_of defs.now) }
{
    for def in defs {
        if let Some(cat) = category_of_first(def.rules()) {
            return Some(cat);
        }
    }
    None
}

/// The first category of the first definition of entry points, or else the category of the first
/// rule.
fn entry_category<'a, 'd>(defs: &'a [ExpandedDef<'d>]) -> Option<&'a CatName>
    ensures { option_map (λ cat. category_text cat.now) result ≡ entry_text defs.now }
{
    match first_entry(defs) {
        Some(cat) => Some(cat),
        None => first_category(defs),
    }
}

/// The entry of the definitions, numbered by the tables.
pub(crate) fn entry_symbol(
    alloc: Global,
    tables: &Tables,
    defs: &[ExpandedDef<'_>],
) -> Result<Option<Symbol>, AllocError>
    requires categories { length tables.now.categories < 2 ^ 16 }
    requires kinds { length tables.now.words + length tables.now.tokens < 2 ^ 16 }
    ensures { IfOk result (λ entry. entry
        ≡ option_map (named_symbol (shown tables.now)) (entry_text defs.now)) }
{
    let Some(cat) = entry_category(defs) else {
        return Ok(None);
    };
    Ok(Some(category_symbol(&mut Vec::new(alloc), tables, cat)?))
}
