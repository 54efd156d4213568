//! The forms of a script's lines. A line is told by its bytes without the LF.
ghost use Rattle.std.specs.Prelude.{◌≡◌, ◌<◌, ◌^◌, ◌↔◌, ◌∷◌, ◌++◌, ℕ, IsTrue, decimal, option_map};
ghost use Rattle.cyk_io.specs.Lines.{HasNoLf};
ghost use Rattle.spec_script.specs.Script.{AreOfWord};
ghost use Rattle.script_reader.specs.Forms.{ReadsNumber, ReadsBehind, ReadsCount, CutsAtSpace};
ghost use Rattle.script_reader.specs.Forms.{ReadsEnds, ReadsConstituent, ReadsTokenSpan};
ghost use Rattle.script_reader.specs.Forms.{ReadsHas, ReadsTree, ReadsTokens, ReadsQuery};
ghost use Rattle.script_reader.specs.Forms.{ReadsSplice, ReadsEdit, ReadsChange, ReadsHead};

use crate::command::{Head, Query, Splice};
use itoa::Buffer;
use memchr::memchr;
use spec_script::{Constituent, TokenSpan};

/// The greatest number of nine digits.
pub(crate) const MAX_NUMBER: u32 = 999_999_999;

/// Whether the word is the number's, which has nine digits at most.
fn is_spelled(word: &[u8], number: u32) -> bool
    ensures { IsTrue result ↔ ((number < 10 ^ 9) × (word.now ≡ decimal number)) }
{
    let mut buffer = Buffer::new();
    number <= MAX_NUMBER && word == buffer.format(number).as_bytes()
}

/// The number that the word spells: `0`, or one to nine digits of which the first is not `0`.
fn number(word: &[u8]) -> Option<u32>
    ensures { ReadsNumber word.now result }
{
    let Ok(text) = str::from_utf8(word) else {
        return None;
    };
    match text.parse() {
        Ok(number) if is_spelled(word, number) => Some(number),
        _ => None,
    }
}

/// The bytes behind the beginning, where the line begins so.
fn behind<'a>(line: &'a [u8], beginning: &[u8]) -> Option<&'a [u8]>
    ensures { ReadsBehind line.now beginning.now result }
{
    line.strip_prefix(beginning)
}

/// The number behind the line's beginning, where it is not above `most`.
pub(crate) fn count_behind(line: &[u8], beginning: &[u8], most: u32) -> Option<u32>
    ensures { ReadsCount line.now beginning.now most result }
{
    match number(behind(line, beginning)?) {
        Some(count) if count <= most => Some(count),
        _ => None,
    }
}

/// The bytes before the first space and those behind it.
fn cut_at_space(bytes: &[u8]) -> Option<(&[u8], &[u8])>
    ensures { CutsAtSpace bytes.now (option_map (λ cut. (cut.0.now, cut.1.now)) result) }
{
    let place = memchr(b' ', bytes)?;
    Some((&bytes[..place], &bytes[place + 1..]))
}

/// The two ends of a span, a space between them.
fn ends_of(bytes: &[u8]) -> Option<(u32, u32)>
    ensures { ReadsEnds bytes.now result }
{
    let (first, end) = cut_at_space(bytes)?;
    Some((number(first)?, number(end)?))
}

/// What has the name over the whole text, where the name has a byte.
fn named_whole(name: &[u8]) -> Option<Constituent<&[u8]>>
    requires { AreOfWord name.now }
    ensures { ReadsConstituent (32 ∷ name.now) result }
{
    if name.is_empty() {
        return None;
    }
    Some(Constituent::NamedWhole(name))
}

/// What has the name over the span of two numbers.
fn named_span<'a>(name: &'a [u8], span: &[u8]) -> Option<Constituent<&'a [u8]>>
    requires { AreOfWord name.now }
    ensures { ReadsConstituent (32 ∷ (name.now ++ (32 ∷ span.now))) result }
{
    if name.is_empty() {
        return None;
    }
    let (first, end) = ends_of(span)?;
    Some(Constituent::NamedSpan { name, first, end })
}

/// The constituent that the bytes behind a question's first word name.
fn constituent_of(bytes: &[u8]) -> Option<Constituent<&[u8]>>
    requires { HasNoLf bytes.now }
    ensures { ReadsConstituent bytes.now result }
{
    if bytes.is_empty() {
        return Some(Constituent::EntryWhole);
    }
    let named = behind(bytes, b" ".as_slice())?;
    match cut_at_space(named) {
        Some((name, span)) => named_span(name, span),
        None => named_whole(named),
    }
}

/// The span of tokens that the bytes behind a question's first word name.
fn token_span_of(bytes: &[u8]) -> Option<TokenSpan>
    ensures { ReadsTokenSpan bytes.now result }
{
    if bytes.is_empty() {
        return Some(TokenSpan::Whole);
    }
    let (first, end) = ends_of(behind(bytes, b" ".as_slice())?)?;
    Some(TokenSpan::Span { first, end })
}

/// The constituent that the line asks for, where it begins with `has`.
fn has_question(line: &[u8]) -> Option<Constituent<&[u8]>>
    requires { HasNoLf line.now }
    ensures { ReadsHas line.now result }
{
    constituent_of(behind(line, b"has".as_slice())?)
}

/// The constituent of whose tree the line asks, where it begins with `tree`.
fn tree_question(line: &[u8]) -> Option<Constituent<&[u8]>>
    requires { HasNoLf line.now }
    ensures { ReadsTree line.now result }
{
    constituent_of(behind(line, b"tree".as_slice())?)
}

/// The span of tokens that the line asks for, where it begins with `tokens`.
fn tokens_question(line: &[u8]) -> Option<TokenSpan>
    ensures { ReadsTokens line.now result }
{
    token_span_of(behind(line, b"tokens".as_slice())?)
}

/// The query that the line asks.
fn query_in(line: &[u8]) -> Option<Query<'_>>
    requires { HasNoLf line.now }
    ensures { ReadsQuery line.now result }
{
    if let Some(constituent) = has_question(line) {
        return Some(Query::Has(constituent));
    }
    match tree_question(line) {
        Some(constituent) => Some(Query::Tree(constituent)),
        None => tokens_question(line).map(|span| Query::Tokens(span)),
    }
}

/// Which bytes are replaced, and by how many others: three numbers, a space between each two.
fn splice_of(bytes: &[u8]) -> Option<Splice>
    ensures { ReadsSplice bytes.now result }
{
    let (place, rest) = cut_at_space(bytes)?;
    let at = number(place)?;
    let (deleted, count) = ends_of(rest)?;
    Some(Splice { at, deleted, count })
}

/// Which bytes the line edits, where it begins with `edit`.
fn edit_splice(line: &[u8]) -> Option<Splice>
    ensures { ReadsEdit line.now result }
{
    splice_of(behind(line, b"edit ".as_slice())?)
}

/// The text or the edit whose block follows the line.
fn change_of(line: &[u8]) -> Option<Head<'_>>
    ensures { ReadsChange line.now result }
{
    match count_behind(line, b"open ".as_slice(), MAX_NUMBER) {
        Some(count) => Some(Head::Open(count)),
        None => edit_splice(line).map(|splice| Head::Edit(splice)),
    }
}

/// What the line of a command tells, or the line `end`.
pub(crate) fn head_of(line: &[u8]) -> Option<Head<'_>>
    requires { HasNoLf line.now }
    ensures { ReadsHead line.now result }
{
    if line == b"end".as_slice() {
        return Some(Head::End);
    }
    match query_in(line) {
        Some(query) => Some(Head::Ask(query)),
        None => change_of(line),
    }
}
