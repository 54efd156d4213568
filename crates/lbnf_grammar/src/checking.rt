//! The checks of names: no name is repeated, and each category that is named is known.
ghost use Rattle.std.specs.Prelude.{◌≡◌, ◌≤◌, [], All, IfOk, MatchOption};
ghost use Rattle.spec_lbnf.specs.Limits.{size_of};
ghost use Rattle.spec_lbnf.specs.Expansion.{kind_names};
ghost use Rattle.spec_lbnf.specs.Checks.{known_names, IsFirstName, HasOwnNames};
ghost use Rattle.spec_lbnf.specs.Checks.{AtOwnName, AreAllKnown, AtUnknown};
ghost use Rattle.spec_lbnf.specs.declared.fault.GrammarFault.TheVariants.{UnknownCategory};
ghost use Rattle.spec_lbnf.specs.declared.fault.GrammarFault.TheVariants.{RepeatedToken};
ghost use Rattle.lbnf_grammar.specs.Grammars.{IsSuchOrMemory};
ghost use Rattle.lbnf_grammar.specs.Numbering.{with_new_names};
ghost use Rattle.lbnf_grammar.specs.Checking.{Checks, IsListed, IsUnlisted, HasTaken, used_names};

use crate::expanded_def::ExpandedDef;
use crate::names::Names;
use crate::naming::{add_token_name, known_names, named_categories, own_names};
use crate::texts::CategoryText;
use spec_lbnf::{Def, GrammarFault};
use std::alloc::{AllocError, Global};

/// The first of the names that is listed.
fn first_listed<'a, 'n>(
    room: &mut Vec<u8>,
    known: &Names,
    names: &'a [CategoryText<'n>],
) -> Result<Option<&'a CategoryText<'n>>, AllocError>
    ensures { IfOk result (λ found. MatchOption found (All (IsUnlisted known.now) names.now)
        (λ name. IsFirstName (IsListed known.now) names.now name.now)) }
{
    for name in names {
        if known.has_text(room, name)? {
            return Ok(Some(name));
        }
    }
    Ok(None)
}

/// That the name is repeated, or that memory ran out.
fn repeated(alloc: Global, name: &CategoryText<'_>) -> GrammarFault
    ensures { IsSuchOrMemory (λ why. why ≡ RepeatedToken name.now) result }
{
    match name.to_name(alloc) {
        Ok(name) => GrammarFault::RepeatedToken { name },
        Err(_) => GrammarFault::Memory,
    }
}

/// The names that the definition may not take: the earlier ones if it is a token definition, and
/// else those of all kinds.
fn taken<'a>(def: &Def, earlier: &'a Names, kinds: &'a Names) -> &'a Names
    ensures { HasTaken earlier.now kinds.now def.now result.now }
{
    if let Def::Token { .. } = def {
        earlier
    } else {
        kinds
    }
}

/// Tells the first name that a definition repeats.
pub(crate) fn check_own_names(
    alloc: Global,
    defs: &[ExpandedDef<'_>],
    kinds: &Names,
) -> Result<(), GrammarFault>
    requires kinds { kinds.now ≡ kind_names defs.now }
    ensures { Checks (λ done. HasOwnNames defs.now) (AtOwnName defs.now) result }
{
    let mut room = Vec::new(alloc);
    let mut earlier = Names::new(alloc);
    for def in defs {
        let Ok(names) = own_names(alloc, def) else {
            return Err(GrammarFault::Memory);
        };
        let taken = taken(def.def(), &earlier, kinds);
        let Ok(found) = first_listed(&mut room, taken, names.as_slice()) else {
            return Err(GrammarFault::Memory);
        };
        if let Some(name) = found {
            return Err(repeated(alloc, name));
        }
        let Ok(()) = add_token_name(alloc, &mut earlier, def.def()) else {
            return Err(GrammarFault::Memory);
        };
    }
    Ok(())
}

/// The first of the names that is not listed.
fn first_unlisted<'a, 'n>(
    room: &mut Vec<u8>,
    known: &Names,
    names: &'a [CategoryText<'n>],
) -> Result<Option<&'a CategoryText<'n>>, AllocError>
    ensures { IfOk result (λ found. MatchOption found (All (IsListed known.now) names.now)
        (λ name. IsFirstName (IsUnlisted known.now) names.now name.now)) }
{
    for name in names {
        if !known.has_text(room, name)? {
            return Ok(Some(name));
        }
    }
    Ok(None)
}

/// That the definition names an unknown category, or that memory ran out.
fn unknown(alloc: Global, name: &CategoryText<'_>, def: u32) -> GrammarFault
    ensures { IsSuchOrMemory (λ why. why ≡ UnknownCategory name.now def) result }
{
    match name.to_name(alloc) {
        Ok(name) => GrammarFault::UnknownCategory { name, def },
        Err(_) => GrammarFault::Memory,
    }
}

/// The kinds among the names that the definitions name, or the first of these that is not known.
fn check_named_by(
    alloc: Global,
    defs: &[ExpandedDef<'_>],
    kinds: &Names,
    known: &Names,
) -> Result<Names, GrammarFault>
    requires few { size_of defs.now ≤ 32768 }
    requires listed { known.now ≡ with_new_names [] (known_names defs.now) }
    ensures { Checks (λ used. AreAllKnown defs.now × (used ≡ used_names kinds.now defs.now))
        (AtUnknown defs.now) result }
{
    let mut room = Vec::new(alloc);
    let mut used = Names::new(alloc);
    for (number, def) in defs.iter().enumerate() {
        let Ok(names) = named_categories(alloc, def) else {
            return Err(GrammarFault::Memory);
        };
        let Ok(found) = first_unlisted(&mut room, known, names.as_slice()) else {
            return Err(GrammarFault::Memory);
        };
        if let Some(name) = found {
            return Err(unknown(alloc, name, number as u32));
        }
        let Ok(()) = used.add_listed(alloc, &mut room, kinds, names.as_slice()) else {
            return Err(GrammarFault::Memory);
        };
    }
    Ok(used)
}

/// The kinds among the names that the definitions name, or the first of these that is no category
/// of a rule and no kind.
pub(crate) fn check_named(
    alloc: Global,
    defs: &[ExpandedDef<'_>],
    kinds: &Names,
) -> Result<Names, GrammarFault>
    requires few { size_of defs.now ≤ 32768 }
    ensures { Checks (λ used. AreAllKnown defs.now × (used ≡ used_names kinds.now defs.now))
        (AtUnknown defs.now) result }
{
    let Ok(known) = known_names(alloc, defs) else {
        return Err(GrammarFault::Memory);
    };
    check_named_by(alloc, defs, kinds, &known)
}
