//! The grammar that bytes spell, accepted with its automaton and its binary form, or refused.
ghost use Rattle.std.specs.Prelude.{◌≤◌, ℕ, List, IfOk, MatchResult};
ghost use Rattle.spec_text.specs.declared.limits.TheConstants.{MAX_FILE, MAX_SYMBOLS};
ghost use Rattle.spec_session.specs.GrammarReplies.{IsAccepted};
ghost use Rattle.script_reader.specs.Reading.{IsBlock};
ghost use Rattle.chart_service.specs.Languages.{CanOpen, IsFaultOf, MakesLexer};
ghost use Rattle.chart_service.specs.KnownTexts.{AreSoundByWords};

use crate::known_texts::{know_names, know_pairs, know_words};
use crate::language::Language;
use binary_form::{BinaryFault, binary};
use cell_sets::Cell;
use lbnf_grammar::{Grammar, GrammarFault, expand};
use lbnf_regex::{Automaton, LexFault, automaton};
use lbnf_text::{TextFault, read_defs};
use script_reader::Block;
use std::alloc::Global;

/// Why bytes give no language: the fault of the first of four layers that has one.
#[derive(Debug, Drop)]
pub enum LanguageFault {
    /// Memory ran out in one of the layers. It comes only at bytes that may be a file: at most
    /// 65,536 that are UTF-8.
    Memory,
    /// The bytes are no grammar file: they are too many, no UTF-8, or spell no definitions. It is
    /// never want of memory.
    Text(TextFault),
    /// The definitions that they spell give no grammar. It is never want of memory.
    Grammar(GrammarFault),
    /// The grammar's kinds and comments have more than 1,023 states. It is never want of memory.
    Lex(LexFault),
    /// The grammar has more than 2,048 symbols: its categories, its kinds, and the items of all its
    /// rules, each counted where it stands. It is never want of memory.
    Binary(BinaryFault),
}

impl From<TextFault> for LanguageFault {
    ghost use Rattle.std.specs.Prelude.{◌≡◌};
    ghost use Rattle.chart_service.specs.Languages.{of_text};

    ghost from_gives = { λ fault given. given ≡ of_text fault };

    fn from(fault: TextFault) -> LanguageFault {
        match fault {
            TextFault::Memory => LanguageFault::Memory,
            other => LanguageFault::Text(other),
        }
    }
}

impl From<GrammarFault> for LanguageFault {
    ghost use Rattle.std.specs.Prelude.{◌≡◌};
    ghost use Rattle.chart_service.specs.Languages.{of_unfit};

    ghost from_gives = { λ fault given. given ≡ of_unfit fault };

    fn from(fault: GrammarFault) -> LanguageFault {
        match fault {
            GrammarFault::Memory => LanguageFault::Memory,
            other => LanguageFault::Grammar(other),
        }
    }
}

impl From<LexFault> for LanguageFault {
    ghost use Rattle.std.specs.Prelude.{◌≡◌};
    ghost use Rattle.chart_service.specs.Languages.{of_lex};

    ghost from_gives = { λ fault given. given ≡ of_lex fault };

    fn from(fault: LexFault) -> LanguageFault {
        match fault {
            LexFault::Memory => LanguageFault::Memory,
            LexFault::TooManyStates => LanguageFault::Lex(LexFault::TooManyStates),
        }
    }
}

impl From<BinaryFault> for LanguageFault {
    ghost use Rattle.std.specs.Prelude.{◌≡◌};
    ghost use Rattle.chart_service.specs.Languages.{of_binary};

    ghost from_gives = { λ fault given. given ≡ of_binary fault };

    fn from(fault: BinaryFault) -> LanguageFault {
        match fault {
            BinaryFault::Memory => LanguageFault::Memory,
            other => LanguageFault::Binary(other),
        }
    }
}

/// The automaton that recognises the comments and the kinds of the grammar.
fn automaton_of(alloc: Global, grammar: &Grammar) -> Result<Automaton, LexFault>
    requires { AreSoundByWords (grammar.now).lexicon.kinds }
    ensures { MakesLexer (grammar.now).lexicon result }
{
    let lines = grammar.line_comments();
    let blocks = grammar.block_comments();
    let kinds = grammar.kinds();
    know_names(lines);
    know_pairs(blocks);
    know_words(kinds);
    automaton(alloc, lines, blocks, kinds)
}

/// The language of the grammar that the bytes spell, a whole file of labelled BNF: its definitions
/// are read, the grammar is made of them, and the automaton and the binary form are made of the
/// grammar. The bytes are not kept.
///
/// The cell type must have room for 2,048 symbols, the most that a grammar may have. The fault is
/// the first in the order of these steps, so a grammar that has too many states and too many
/// symbols is refused for its states.
///
/// Reading takes time by the bytes of the file, the automaton by its states, of which each has a
/// row of 512 bytes, and the binary form by the members of all closures, at most the square of the
/// number of symbols.
pub fn read_language<C: Cell>(alloc: Global, bytes: &[u8]) -> Result<Language<C>, LanguageFault>
    requires room { MAX_SYMBOLS ≤ C.ROOM }
    ensures ok { MatchResult result (IsAccepted bytes.now) (IsFaultOf bytes.now) }
    ensures can { IfOk result (CanOpen C.ROOM) }
{
    let defs = read_defs(alloc, bytes)?;
    let grammar = expand(alloc, &defs)?;
    let automaton = automaton_of(alloc, &grammar)?;
    let binary = binary::<C>(alloc, &grammar)?;
    Ok(Language::of(grammar, automaton, binary))
}

/// The language of the grammar that the block spells, where the block is not too long.
pub(crate) fn language_in<C: Cell>(
    alloc: Global,
    block: &Block,
) -> Result<Language<C>, LanguageFault>
    requires room { MAX_SYMBOLS ≤ C.ROOM }
    ensures ok { (bytes : List ℕ) → IsBlock MAX_FILE block.now bytes
        → MatchResult result (IsAccepted bytes) (IsFaultOf bytes) }
    ensures can { IfOk result (CanOpen C.ROOM) }
{
    match block {
        Block::Kept(bytes) => read_language(alloc, bytes.as_slice()),
        Block::TooLong(count) => {
            let count = u64::from(*count);
            Err(LanguageFault::Text(TextFault::TooLarge { count }))
        }
    }
}
