//! The fault of a definition that cannot go on.
ghost use Rattle.std.specs.Prelude.{◌≡◌, [], None};
ghost use Rattle.std.specs.Option.{option_copied};
ghost use Rattle.spec_lbnf.specs.declared.token.FileToken.TheVariants.{Identifier};
ghost use Rattle.spec_lbnf.specs.Faults.{bare};
ghost use Rattle.lbnf_readers.specs.FileFaults.{piece_fault};
ghost use Rattle.lbnf_readers.specs.FileDefinitions.{offset_of, stuck_fault};
ghost use Rattle.lbnf_text.specs.Faulting.{identifier, second_fault, third_fault, IsFault, IsStart};

use crate::parser::{first_of, is_sign, starts_upper};
use spec_lbnf::{FileToken, PlacedToken, Sign, TextFault};
use spec_text::Name;
use std::alloc::Global;

/// What a definition has begun with, as far as its fault asks.
#[derive(Clone, Copy)]
enum Start<'a> {
    /// No token.
    Nothing,
    /// One identifier.
    Word(&'a Name),
    /// Two identifiers.
    TwoWords(&'a Name, &'a Name),
    /// Other tokens.
    Other,
}

fn identifier(token: &FileToken) -> Option<&Name>
    ensures { option_copied result ≡ identifier token.now }
{
    if let FileToken::Identifier(name) = token {
        Some(name)
    } else {
        None
    }
}

/// What the tokens at the beginning of a definition are.
fn start_of(front: &[PlacedToken]) -> Start<'_>
    ensures { IsStart (bare front.now) result }
{
    let Some((first, behind)) = first_of(front) else {
        return Start::Nothing;
    };
    let Some(word) = identifier(&first.token) else {
        return Start::Other;
    };
    let Some((second, behind)) = first_of(behind) else {
        return Start::Word(word);
    };
    let Some(other) = identifier(&second.token) else {
        return Start::Other;
    };
    if first_of(behind).is_some() {
        return Start::Other;
    }
    Start::TwoWords(word, other)
}

/// That the word, which is copied, is not supported.
fn unsupported(alloc: Global, word: &str, at: u32) -> TextFault
    ensures { IsFault (TextFault.Unsupported word.now at) result }
{
    match Vec::from_slice(alloc, word.as_bytes()) {
        Ok(bytes) => {
            let word = Name::of(bytes);
            TextFault::Unsupported { word, at }
        }
        Err(_) => TextFault::Memory,
    }
}

/// The fault of a token that begins no definition.
fn first_fault(alloc: Global, token: &FileToken, at: u32) -> TextFault
    ensures { IsFault (piece_fault [] token.now at) result }
{
    let Some(word) = identifier(token) else {
        return TextFault::Syntax { at };
    };
    if starts_upper(word.as_slice()) {
        TextFault::Syntax { at }
    } else {
        unsupported(alloc, word.as_str(), at)
    }
}

/// The fault of a word behind a first word.
fn second_word(alloc: Global, first: &Name, word: &Name, at: u32) -> TextFault
    ensures { IsFault (second_fault first.now (Identifier word.now) at) result }
{
    if first.as_slice() != b"internal".as_slice() {
        return TextFault::Syntax { at };
    }
    if starts_upper(word.as_slice()) {
        return TextFault::Syntax { at };
    }
    unsupported(alloc, word.as_str(), at)
}

/// The fault of a token that is no word behind a first word.
fn second_sign(alloc: Global, first: &Name, token: &FileToken, at: u32) -> TextFault
    requires { identifier token.now ≡ None }
    ensures { IsFault (second_fault first.now token.now at) result }
{
    if !is_sign(Sign::OpenParen, token) {
        return TextFault::Syntax { at };
    }
    if !starts_upper(first.as_slice()) {
        return TextFault::Syntax { at };
    }
    unsupported(alloc, "(", at)
}

/// The fault of a token behind a first word.
fn second_fault(alloc: Global, first: &Name, token: &FileToken, at: u32) -> TextFault
    ensures { IsFault (second_fault first.now token.now at) result }
{
    match token {
        FileToken::Identifier(word) => second_word(alloc, first, word, at),
        FileToken::Number(_) => second_sign(alloc, first, token, at),
        FileToken::Text(_) => second_sign(alloc, first, token, at),
        FileToken::Character(_) => second_sign(alloc, first, token, at),
        FileToken::Sign(_) => second_sign(alloc, first, token, at),
    }
}

/// The fault of a token behind two words.
fn third_fault(alloc: Global, first: &Name, second: &Name, token: &FileToken, at: u32) -> TextFault
    ensures { IsFault (third_fault first.now second.now token.now at) result }
{
    if !is_sign(Sign::OpenParen, token) {
        return TextFault::Syntax { at };
    }
    if first.as_slice() != b"internal".as_slice() {
        return TextFault::Syntax { at };
    }
    unsupported(alloc, "(", at)
}

/// The fault of a token at which a definition that has begun with these cannot go on.
fn token_fault(alloc: Global, front: &[PlacedToken], token: &PlacedToken) -> TextFault
    ensures { IsFault
        (piece_fault (bare front.now) token.now.token token.now.offset) result }
{
    let at = token.offset;
    match start_of(front) {
        Start::Nothing => first_fault(alloc, &token.token, at),
        Start::Word(word) => second_fault(alloc, word, &token.token, at),
        Start::TwoWords(word, other) => third_fault(alloc, word, other, &token.token, at),
        Start::Other => TextFault::Syntax { at },
    }
}

/// The fault of a piece that cannot go on with its last tokens, these; the stop is the offset of
/// what stands behind the piece.
pub fn stuck_fault(
    alloc: Global,
    piece: &[PlacedToken],
    rest: &[PlacedToken],
    stop: u32,
) -> TextFault
    ensures { IsFault (stuck_fault piece.now rest.now stop) result }
{
    let Some((token, _)) = first_of(rest) else {
        return TextFault::Syntax { at: stop };
    };
    let read = piece.len().saturating_sub(rest.len());
    token_fault(alloc, &piece[..read], token)
}

/// Where the first of the tokens begins, or else this offset.
pub fn offset_of(tokens: &[PlacedToken], stop: u32) -> u32
    ensures { result ≡ offset_of tokens.now stop }
{
    match first_of(tokens) {
        Some((token, _)) => token.offset,
        None => stop,
    }
}
