//! Expanding definitions: the checks, then the numbers.
ghost use Rattle.std.specs.Prelude.{◌≡◌, map, IfOk};
ghost use Rattle.spec_lbnf.specs.Limits.{AreFewAndSmall};
ghost use Rattle.spec_lbnf.specs.Expansion.{kind_names, active_kinds, tables_of, expansion_of};
ghost use Rattle.spec_lbnf.specs.Checks.{HasFewRules, HasOwnNames, AreAllKnown};
ghost use Rattle.lbnf_grammar.specs.Grammars.{PassFirstChecks, Expands};
ghost use Rattle.lbnf_grammar.specs.Checking.{PassesCycles, used_names};
ghost use Rattle.lbnf_grammar.specs.Numbering.{AreFew};
ghost use Rattle.lbnf_grammar.specs.PredefinedKinds.{predefined_token};
ghost use Rattle.lbnf_grammar.specs.Tables.{shown};

use crate::checking::{check_named, check_own_names};
use crate::counting::check_count;
use crate::entry::entry_symbol;
use crate::expanded_def::{ExpandedDef, expanded_defs};
use crate::labels::check_labels;
use crate::lexicon::lexicon_of;
use crate::names::Names;
use crate::naming::kind_names;
use crate::numbering::numbered_rules;
use crate::predefined::{Predefined, active_kinds};
use crate::tables::{Tables, tables_of};
use lbnf_text::{Def, Defs};
use numbered_grammar::{CycleFault, Grammar, GrammarParts};
use spec_lbnf::GrammarFault;
use std::alloc::{AllocError, Global};

/// The parts of the grammar that the definitions stand for, by their tables.
fn parts_by(
    alloc: Global,
    defs: &[ExpandedDef<'_>],
    tables: Tables,
    active: &[Predefined],
) -> Result<GrammarParts, AllocError>
    requires tables { shown tables ≡ tables_of defs.now }
    requires active { map predefined_token active.now ≡ active_kinds defs.now }
    requires few { AreFew defs.now }
    requires own { HasOwnNames defs.now }
    requires known { AreAllKnown defs.now }
    ensures { IfOk result (λ parts. parts ≡ expansion_of defs.now) }
{
    let rules = numbered_rules(alloc, &tables, defs)?;
    let entry = entry_symbol(alloc, &tables, defs)?;
    let categories = tables.categories.into_list(alloc)?;
    let lexicon = lexicon_of(alloc, tables.words.into_list(alloc)?, defs, active)?;
    Ok(GrammarParts::of(rules, categories, lexicon, entry))
}

/// The parts of the grammar that the definitions stand for. The first names are those of kinds, and
/// the second those of kinds that the definitions name.
fn numbered_parts(
    alloc: Global,
    defs: &[ExpandedDef<'_>],
    kinds: &Names,
    used: &Names,
) -> Result<GrammarParts, AllocError>
    requires limits { AreFewAndSmall defs.now }
    requires few_rules { HasFewRules defs.now }
    requires own { HasOwnNames defs.now }
    requires known { AreAllKnown defs.now }
    requires kinds { kinds.now ≡ kind_names defs.now }
    requires used { used.now ≡ used_names (kind_names defs.now) defs.now }
    ensures { IfOk result (λ parts. parts ≡ expansion_of defs.now) }
{
    let active = active_kinds(alloc, defs, used)?;
    let tables = tables_of(alloc, defs, kinds, active.as_slice())?;
    parts_by(alloc, defs, tables, active.as_slice())
}

/// The grammar of these parts, or the first category that reaches itself.
fn acyclic(alloc: Global, parts: GrammarParts) -> Result<Grammar, GrammarFault>
    ensures { PassesCycles parts result }
{
    match Grammar::of_parts(alloc, parts) {
        Ok(grammar) => Ok(grammar),
        Err(CycleFault::Cyclic { name }) => Err(GrammarFault::Cyclic { name }),
        Err(CycleFault::Memory) => Err(GrammarFault::Memory),
    }
}

/// The grammar that the definitions stand for, or why they are unfit, where they pass the first two
/// checks.
fn expand_by(alloc: Global, defs: &[ExpandedDef<'_>]) -> Result<Grammar, GrammarFault>
    requires limits { AreFewAndSmall defs.now }
    requires first { PassFirstChecks defs.now }
    ensures { Expands defs.now result }
{
    let Ok(kinds) = kind_names(alloc, defs) else {
        return Err(GrammarFault::Memory);
    };
    check_own_names(alloc, defs, &kinds)?;
    let used = check_named(alloc, defs, &kinds)?;
    let Ok(parts) = numbered_parts(alloc, defs, &kinds, &used) else {
        return Err(GrammarFault::Memory);
    };
    acyclic(alloc, parts)
}

/// The grammar that the definitions stand for, or why they are unfit.
fn expand_defs(alloc: Global, defs: &[Def]) -> Result<Grammar, GrammarFault>
    requires { AreFewAndSmall defs.now }
    ensures { Expands defs.now result }
{
    check_labels(defs)?;
    check_count(defs)?;
    let Ok(expanded) = expanded_defs(alloc, defs) else {
        return Err(GrammarFault::Memory);
    };
    expand_by(alloc, expanded.as_slice())
}

/// The grammar that the definitions stand for, or why they are unfit: the first, in this order, of
/// a bad label or bad levels, too many rules, a name that is repeated, a category that is not known,
/// and a category that reaches itself. Rules are counted before any is made, and the first two
/// checks take no memory, so `Memory` comes only where both are passed.
///
/// Categories and words are numbered from 0 as the rules meet them, each rule's own category first,
/// and the categories that only internal rules have are behind them. Kinds are the words, the token
/// definitions and the active predefined kinds. It makes the rules of macros once and copies none
/// that is written, takes five look-ups for each item, copies each name once for each table that it
/// is in and each expression once, and then takes what `Grammar::of_parts` takes.
pub fn expand(alloc: Global, defs: &Defs) -> Result<Grammar, GrammarFault>
    ensures { Expands defs.now result }
{
    expand_defs(alloc, defs.as_slice())
}
