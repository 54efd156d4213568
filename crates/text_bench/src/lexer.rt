//! The automaton of JSON.
ghost use Rattle.std.specs.Prelude.{IfOk};
ghost use Rattle.spec_lexing.specs.Lexicon.{Lexicon};
ghost use Rattle.text_store.specs.TextStore.{Lexes};

use crate::kinds::json_kinds;
use lbnf_regex::{Automaton, automaton};
use std::alloc::{AllocError, Global};

/// The most kinds of an automaton.
const MOST_KINDS: usize = 65_535;

/// The automaton by which texts of JSON are opened. Its states are few.
pub fn json_lexer(alloc: Global) -> Result<Automaton, AllocError>
    ensures { IfOk result (λ a. (lexicon : Lexicon) × Lexes lexicon a) }
{
    let kinds = json_kinds(alloc)?;
    if kinds.len() > MOST_KINDS {
        return Err(AllocError);
    }
    match automaton(alloc, &[], &[], kinds.as_slice()) {
        Ok(automaton) => Ok(automaton),
        Err(_) => Err(AllocError),
    }
}
