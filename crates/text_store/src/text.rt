//! A text that keeps its tokens.
ghost use Rattle.std.specs.Prelude.{◌≡◌, ◌<◌, length, slice_get, slice_range, IsUtf8, Some, IfOk};
ghost use Rattle.std.specs.Prelude.{All, IfErr, MatchResult};
ghost use Rattle.std.specs.Option.{option_map};
ghost use Rattle.spec_lexing.specs.Lexicon.{Lexicon};
ghost use Rattle.spec_lexing.specs.Tokens.{kinds_of};
ghost use Rattle.text_store.specs.TextStore.{FitText, Lexes, LiesIn, OpensBytes, OpensTokens};
ghost use Rattle.text_store.specs.TextStore.{token_bytes};
ghost use Rattle.text_store.specs.TokenEdits.{IsTrimmedEdit};
ghost use Rattle.text_store.specs.Lexing.{IsBytesFault, IsLexerFault};

use crate::fault::EditFault;
use crate::lexing::tokens_of;
use crate::limits::MAX_BYTES;
use crate::token_edit::{TokenEdit, token_edit};
use lbnf_regex::Automaton;
use spec_lexing::Token;
use spec_text::Name;
use std::alloc::{AllocError, Global};
use std::marker::Model;

/// A text with its tokens. It has at most 1,048,576 bytes, which are UTF-8, and at most 16,384
/// tokens. It does not know its automaton.
#[derive(Drop)]
pub struct Text {
    bytes: Vec<u8>,
    tokens: Vec<Token>,
}

impl Model for Text {
    ghost use Rattle.text_store.specs.TextStore.{TextValue};
    ghost use Rattle.text_store.specs.Lexing.{MayKeep};

    ghost Value = { TextValue };

    ghost view = { λ t. record { bytes = t.bytes.items; tokens = t.tokens.items } };

    ghost invariant = { λ t. MayKeep t.bytes.items t.tokens.items };
}

/// Looks whether a text may have the bytes.
fn check_bytes(bytes: &[u8]) -> Result<(), EditFault>
    ensures { MatchResult result (λ _. FitText bytes.now) (IsBytesFault bytes.now) }
{
    let count = bytes.len();
    if count > MAX_BYTES {
        let count = count as u64;
        return Err(EditFault::FullText { count });
    }
    match str::from_utf8(bytes) {
        Ok(_) => Ok(()),
        Err(fault) => {
            let at = fault.valid_up_to() as u64;
            Err(EditFault::NotUtf8 { at })
        }
    }
}

impl Text {
    /// The text of these bytes, which are copied, with its tokens by longest match. White space and
    /// comments have none, and one scalar where nothing matches is a stray token.
    ///
    /// From each place it reads as far as some kind may still go on, which may be to the end of the
    /// text. So the time grows with the bytes where kinds are decided soon, and with their square
    /// at the worst, as under a kind `(digit+ '.')* '!'` in a text that has no exclamation mark, or
    /// where comments that are never closed are opened at each place. It stops at the first token
    /// that is one too many.
    pub fn open(alloc: Global, automaton: &Automaton, bytes: &[u8]) -> Result<Text, EditFault>
        requires lexed { (lexicon : Lexicon) × Lexes lexicon automaton.now }
        ensures bytes { OpensBytes bytes.now result }
        ensures tokens { (lexicon : Lexicon) → Lexes lexicon automaton.now
            → OpensTokens lexicon bytes.now result }
    {
        check_bytes(bytes)?;
        let bytes = Vec::from_slice(alloc, bytes)?;
        Text::lexed(alloc, automaton, bytes)
    }

    /// The text of these bytes, which are kept, with its tokens.
    pub(crate) fn lexed(
        alloc: Global,
        automaton: &Automaton,
        bytes: Vec<u8>,
    ) -> Result<Text, EditFault>
        requires fit { FitText bytes.items }
        requires lexed { (lexicon : Lexicon) × Lexes lexicon automaton.now }
        ensures bytes { IfOk result (λ text. text.bytes ≡ bytes.items) }
        ensures tokens { (lexicon : Lexicon) → Lexes lexicon automaton.now
            → OpensTokens lexicon bytes.items result }
        ensures err { IfErr result IsLexerFault }
    {
        let tokens = tokens_of(alloc, automaton, bytes.as_slice())?;
        Ok(Text { bytes, tokens })
    }

    /// The bytes. It takes no memory.
    pub fn bytes(&self) -> &[u8]
        ensures bytes { result.now ≡ self.now.bytes }
        ensures utf8 { ∥ IsUtf8 self.now.bytes ∥₁ }
        ensures tokens { All (LiesIn self.now.bytes) self.now.tokens }
    {
        self.bytes.as_slice()
    }

    /// How many bytes there are. It takes no memory.
    pub fn byte_len(&self) -> u32
        ensures { result ≡ length self.now.bytes }
    {
        self.bytes.len() as u32
    }

    /// How many tokens there are, stray ones among them. It takes no memory.
    pub fn token_count(&self) -> u32
        ensures { result ≡ length self.now.tokens }
    {
        self.tokens.len() as u32
    }

    /// The number of the token's kind, None for a stray token. It takes no memory.
    pub fn token_kind(&self, i: u32) -> Option<u16>
        requires { i < length self.now.tokens }
        ensures { slice_get (kinds_of self.now.tokens) i ≡ Some result }
    {
        self.tokens[i as usize].kind
    }

    /// The offsets of the token's first byte and of the one behind its last. It takes no memory.
    pub fn token_span(&self, i: u32) -> (u32, u32)
        requires { i < length self.now.tokens }
        ensures { option_map (λ token. (token.first, token.end)) (slice_get self.now.tokens i)
            ≡ Some result }
    {
        let token = self.tokens[i as usize];
        (token.first, token.end)
    }

    /// The bytes of the token, which are copied.
    pub fn token_text(&self, alloc: Global, i: u32) -> Result<Name, AllocError>
        requires { i < length self.now.tokens }
        ensures { IfOk result (λ name.
            option_map (token_bytes self.now.bytes) (slice_get self.now.tokens i) ≡ Some name) }
    {
        let token = self.tokens[i as usize];
        let bytes = &self.bytes.as_slice()[token.first as usize..token.end as usize];
        Ok(Name::of(Vec::from_slice(alloc, bytes)?))
    }

    /// The tokens, in the order in which they stand. It takes no memory.
    pub fn tokens(&self) -> &[Token]
        ensures { result.now ≡ self.now.tokens }
    {
        self.tokens.as_slice()
    }

    /// What one has to do to the kinds of this text's tokens to get those of the other.
    pub(crate) fn edit_to(&self, alloc: Global, other: &Text) -> Result<TokenEdit, AllocError>
        ensures { IfOk result
            (IsTrimmedEdit (kinds_of self.now.tokens) (kinds_of other.now.tokens)) }
    {
        token_edit(alloc, self.tokens.as_slice(), other.tokens.as_slice())
    }

    /// The kind of each token, None for a stray one: what a chart is filled from.
    pub fn kinds(&self, alloc: Global) -> Result<Vec<Option<u16>>, AllocError>
        ensures { IfOk result (λ kinds. kinds.items ≡ kinds_of self.now.tokens) }
    {
        self.tokens.iter().map(|token| token.kind).collect(alloc)
    }

    /// An equal text. The bytes and the tokens are copied.
    pub fn share(&self, alloc: Global) -> Result<Text, AllocError>
        ensures { IfOk result (λ text. text ≡ self.now) }
    {
        let bytes = Vec::from_slice(alloc, self.bytes.as_slice())?;
        let tokens = Vec::from_slice(alloc, self.tokens.as_slice())?;
        Ok(Text { bytes, tokens })
    }
}
