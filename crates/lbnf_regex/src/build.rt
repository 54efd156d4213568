//! The automaton of kinds.
ghost use Rattle.std.specs.Prelude.{◌≡◌, ◌+◌, ◌<◌, ◌≤◌, ◌^◌, Err, List, length, map, IfOk};
ghost use Rattle.spec_automata.specs.Encoding.{one_of_these};
ghost use Rattle.spec_automata.specs.States.{HasManySets, HasTooManyStates};
ghost use Rattle.lbnf_regex.specs.Automata.{RecognisesThese};
ghost use Rattle.lbnf_regex.specs.Lexicons.{IsAutomatonOf, lexicon_with};
ghost use Rattle.lbnf_regex.specs.Patterns.{bytes_of_pattern};
ghost use Rattle.lbnf_regex.specs.declared.lex_fault.LexFault.TheVariants.{TooManyStates};
ghost use Rattle.lbnf_regex.specs.declared.pattern.Pattern.{Pattern};
ghost use Rattle.lbnf_regex.specs.declared.pattern.Pattern.TheVariants.{Alt};

use crate::accepting::places;
use crate::expecting::{size_if_fits, sizes};
use crate::kinds::patterns_of;
use crate::lex_fault::LexFault;
use crate::machine::Automaton;
use crate::owner::owners;
use crate::pattern::Pattern;
use crate::states::{Table, make_table};
use spec_lexing::KindDef;
use spec_text::{MAX_STATES, Name};
use sqlite_items::Items;
use std::alloc::Global;

fn parts_of(pattern: &Pattern) -> &[Pattern]
    ensures { (parts : List Pattern) → pattern.now ≡ Alt parts → result.now ≡ parts }
{
    match pattern {
        Pattern::Alt(parts) => parts.as_slice(),
        _ => &[],
    }
}

/// The automaton of these kinds, the least first. Its states, with the start, are at most so many.
pub(crate) fn automaton_of(
    alloc: Global,
    kinds: Items<Pattern>,
    comments: usize,
    most: usize,
) -> Result<Automaton, LexFault>
    requires few { length kinds ≤ comments + 1 + 2 ^ 16 }
    requires some { 0 < most }
    requires room { most < 2 ^ 16 }
    ensures these { IfOk result (RecognisesThese (map bytes_of_pattern kinds) comments) }
    ensures few { IfOk result (λ a.
        HasManySets (one_of_these (map bytes_of_pattern kinds)) most → ⊥) }
    ensures full { result ≡ Err TooManyStates
        → HasManySets (one_of_these (map bytes_of_pattern kinds)) most }
{
    let all = Pattern::Alt(kinds);
    let Some(_size) = size_if_fits(&all) else {
        return Err(LexFault::Memory);
    };
    let parts = parts_of(&all);
    let owners = owners(alloc, parts)?;
    let Table { states, rows } = make_table(alloc, parts, owners.as_slice(), most)?;
    let sizes = sizes(alloc, parts)?;
    let places = places(alloc, parts, sizes.as_slice(), &states)?;
    Ok(Automaton::of(rows, places, comments))
}

/// The automaton that recognises white space, these comments and these kinds at once. It has at
/// most `MAX_STATES` states, its start included.
pub fn automaton(
    alloc: Global,
    lines: &[Name],
    blocks: &[(Name, Name)],
    kinds: &[KindDef],
) -> Result<Automaton, LexFault>
    requires { length kinds.now < 2 ^ 16 }
    ensures automaton { IfOk result
        (IsAutomatonOf (lexicon_with lines.now blocks.now kinds.now)) }
    ensures few { IfOk result (λ a.
        HasTooManyStates (lexicon_with lines.now blocks.now kinds.now) → ⊥) }
    ensures full { result ≡ Err TooManyStates
        → HasTooManyStates (lexicon_with lines.now blocks.now kinds.now) }
{
    let patterns = patterns_of(alloc, lines, blocks, kinds)?;
    automaton_of(alloc, patterns, lines.len() + blocks.len(), MAX_STATES)
}
