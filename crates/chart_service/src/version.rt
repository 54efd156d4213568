//! The versions of a text: what makes the text of one, and its chart.
ghost use Rattle.std.specs.Prelude.{◌≡◌, ◌<◌, ◌≤◌, ℕ, List, length, IfOk, Some};
ghost use Rattle.spec_text.specs.declared.limits.TheConstants.{MAX_TOKENS};
ghost use Rattle.spec_script.specs.declared.limits.TheConstants.{MAX_BLOCK};
ghost use Rattle.text_store.specs.TextEdits.{IsSizeFault};
ghost use Rattle.chart_service.specs.Languages.{CanOpen};
ghost use Rattle.chart_service.specs.Sessions.{IsBlockOf, MayBeGiven};
ghost use Rattle.chart_service.specs.Texts.{MakesOpened, MakesEdited, IsVersionWith};

use crate::language::Language;
use cell_sets::Cell;
use std::alloc::{AllocError, Global};
use text_store::{EditFault, Text};
use valiant::Chart;

/// A version of the text of a session: its number, the text, and the chart of its tokens.
#[derive(Drop)]
pub struct Version<C: Cell> {
    /// How many versions there were before it.
    pub number: u64,
    /// The text.
    pub text: Text,
    /// The chart of its tokens' kinds, under the session's grammar.
    pub chart: Chart<C>,
}

/// The text of the block under the language's grammar.
pub(crate) fn opened_text<C: Cell>(
    alloc: Global,
    language: &Language<C>,
    count: u64,
    bytes: Option<&[u8]>,
) -> Result<Text, EditFault>
    ensures { (text : List ℕ) → IsBlockOf count bytes.entry text
        → MakesOpened (language.now).lexicon text result }
{
    match bytes {
        Some(bytes) => Text::open(alloc, language.automaton(), bytes),
        None => Err(EditFault::FullText { count }),
    }
}

/// What keeps so many bytes of the text from being replaced by a block of so many, which is longer
/// than any text.
fn long_fault(text: &Text, at: u64, deleted: u64, count: u64) -> EditFault
    requires { MAX_BLOCK < count }
    ensures { (n : ℕ) × (MAX_BLOCK < n)
        × IsSizeFault (length text.now.bytes) at deleted n (Some result) }
{
    match text.fits(at, deleted, count.min(u64::from(u32::MAX))) {
        Some(fault) => fault,
        None => unreachable!(),
    }
}

/// The text in which so many bytes from the place on are replaced by the block.
pub(crate) fn edited_text<C: Cell>(
    alloc: Global,
    language: &Language<C>,
    text: &Text,
    at: u64,
    deleted: u64,
    count: u64,
    bytes: Option<&[u8]>,
) -> Result<Text, EditFault>
    requires given { MayBeGiven count bytes }
    ensures { (inserted : List ℕ) → IsBlockOf count bytes.entry inserted
        → MakesEdited (language.now).lexicon text.now.bytes at deleted inserted result }
{
    match bytes {
        Some(bytes) => {
            let changed = text.edit(alloc, language.automaton(), at, deleted, bytes)?;
            Ok(changed.0)
        }
        None => Err(long_fault(text, at, deleted, count)),
    }
}

/// The version of this number and text under the language's grammar.
pub(crate) fn version_of<C: Cell>(
    alloc: Global,
    language: &Language<C>,
    number: u64,
    text: Text,
) -> Result<Version<C>, AllocError>
    requires can { CanOpen C.ROOM language.now }
    requires few { length text.tokens ≤ MAX_TOKENS }
    ensures { IfOk result (IsVersionWith language.now number text) }
{
    let kinds = text.kinds(alloc)?;
    let chart = Chart::of_kinds(alloc, language.binary(), kinds.as_slice())?;
    Ok(Version {
        number,
        text,
        chart,
    })
}
