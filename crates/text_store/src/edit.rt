//! Editing a text.
ghost use Rattle.std.specs.Prelude.{◌≡◌, ◌+◌, ◌-◌, ◌^◌, ◌<◌, ◌≤◌, ◌↔◌, length, IsTrue, IfOk};
ghost use Rattle.std.specs.Prelude.{MatchResult};
ghost use Rattle.std.specs.Str.{IsCharBoundary};
ghost use Rattle.spec_lexing.specs.Lexicon.{Lexicon};
ghost use Rattle.text_store.specs.Splices.{splice};
ghost use Rattle.text_store.specs.TextStore.{Lexes};
ghost use Rattle.text_store.specs.TextEdits.{IsSizeFault, CutsNone, edited};
ghost use Rattle.text_store.specs.TextEdits.{EditsBytes, EditsTokens, TellsEdit};
ghost use Rattle.text_store.specs.Lexing.{IsCutFault};

use crate::fault::EditFault;
use crate::limits::MAX_BYTES;
use crate::text::Text;
use crate::token_edit::TokenEdit;
use lbnf_regex::Automaton;
use std::alloc::{AllocError, Global};

/// Whether a scalar of the text begins at the place, or the text ends there.
fn is_scalar_boundary(text: &[u8], place: usize) -> bool
    requires { place ≤ length text.now }
    ensures { IsTrue result ↔ IsCharBoundary text.now place }
{
    match text.get(place) {
        Some(byte) => !(0x80..=0xBF).contains(byte),
        None => true,
    }
}

/// Looks whether an edit cuts no scalar of the text, and inserts UTF-8.
fn check_cuts(text: &[u8], at: usize, del: usize, ins: &[u8]) -> Result<(), EditFault>
    requires within { at + del ≤ length text.now }
    ensures { MatchResult result (λ _. CutsNone text.now at del ins.now)
        (IsCutFault text.now at del ins.now) }
{
    if !is_scalar_boundary(text, at) {
        let at = at as u64;
        return Err(EditFault::NotUtf8 { at });
    }
    if !is_scalar_boundary(text, at + del) {
        let at = (at + del) as u64;
        return Err(EditFault::NotUtf8 { at });
    }
    match str::from_utf8(ins) {
        Ok(_) => Ok(()),
        Err(fault) => {
            let at = (at + fault.valid_up_to()) as u64;
            Err(EditFault::NotUtf8 { at })
        }
    }
}

/// The bytes of the edited text.
fn spliced(
    alloc: Global,
    text: &[u8],
    at: usize,
    del: usize,
    ins: &[u8],
) -> Result<Vec<u8>, AllocError>
    requires within { at + del ≤ length text.now }
    requires size { (length text.now - del) + length ins.now < 2 ^ 63 }
    ensures { IfOk result (λ bytes. bytes.items ≡ splice text.now at del ins.now) }
{
    let mut bytes = Vec::with_capacity(alloc, text.len() - del + ins.len())?;
    bytes.extend_from_slice(&text[..at])?;
    bytes.extend_from_slice(ins)?;
    bytes.extend_from_slice(&text[at + del..])?;
    Ok(bytes)
}

impl Text {
    /// What keeps so many bytes at the place from being replaced by `count` others, if the numbers
    /// alone do. None where they do not: an edit may then still be refused for its bytes or tokens.
    /// All are numbers of bytes, and that of `FullText` is the edited text's. It takes no memory.
    pub fn fits(&self, at: u64, del: u64, count: u64) -> Option<EditFault>
        requires { count < 2 ^ 63 }
        ensures { IsSizeFault (length self.now.bytes) at del count result }
    {
        let len = self.byte_len();
        let size = len as u64;
        if at > size || del > size - at {
            return Some(EditFault::Range { len });
        }
        let count = size - del + count;
        if count > MAX_BYTES as u64 {
            return Some(EditFault::FullText { count });
        }
        None
    }

    /// The text with the `del` bytes from `at` on replaced by others, and what that does to the kinds
    /// of its tokens. This text stays as it is.
    ///
    /// The new text is cut into tokens from its start, as `open` does it, and takes as long. Its bytes
    /// are copied once.
    pub fn edit(
        &self,
        alloc: Global,
        automaton: &Automaton,
        at: u64,
        del: u64,
        ins: &[u8],
    ) -> Result<(Text, TokenEdit), EditFault>
        requires lexed { (lexicon : Lexicon) × Lexes lexicon automaton.now }
        ensures bytes { EditsBytes self.now.bytes at del ins.now result }
        ensures tokens { (lexicon : Lexicon) → Lexes lexicon automaton.now
            → EditsTokens lexicon (edited self.now.bytes at del ins.now) result }
        ensures edit { IfOk result (TellsEdit self.now.tokens) }
    {
        if let Some(fault) = self.fits(at, del, ins.len() as u64) {
            return Err(fault);
        }
        let (at, del) = (at as usize, del as usize);
        check_cuts(self.bytes(), at, del, ins)?;
        let bytes = spliced(alloc, self.bytes(), at, del, ins)?;
        let text = Text::lexed(alloc, automaton, bytes)?;
        let edit = self.edit_to(alloc, &text)?;
        Ok((text, edit))
    }
}
