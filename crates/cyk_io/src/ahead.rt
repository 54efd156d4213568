//! Bytes that were read ahead of what was asked for, and the offset of the byte that comes next. A
//! source is read only where none of them is left, so that after a fault none is held.
ghost use Rattle.std.specs.Prelude.{◌≡◌, ℕ, ◌+◌, ◌-◌, ◌<◌, ◌≤◌, ◌^◌, ◌↔◌, [], ◌∷◌, IsTrue};
ghost use Rattle.std.specs.Prelude.{IsErr, OnOk, OnErr, MatchOption, MatchResult, Contains, drop};
ghost use Rattle.std.specs.Prelude.{length};
ghost use Rattle.cyk_io.specs.Causes.{HasCause};
ghost use Rattle.cyk_io.specs.NextByte.{TakesNext};
ghost use Rattle.cyk_io.specs.Streams.{IsAtEnd, Stays, coming};

use crate::{Failed, Source};
use std::marker::Model;

/// How many bytes are read ahead at most.
const MAX_AHEAD: usize = 4096;

/// Up to 4,096 bytes that were read ahead of a source, and the offset of the next byte in the input.
/// One belongs to one source.
#[derive(Drop)]
pub struct Ahead {
    buffer: [u8; MAX_AHEAD],
    start: usize,
    end: usize,
    offset: u64,
}

impl Model for Ahead {
    ghost use Rattle.std.specs.Prelude.{◌-◌, ◌≤◌, take, drop};
    ghost use Rattle.cyk_io.specs.Streams.{ReadAhead};
    ghost use Rattle.cyk_io.specs.declared.ahead.TheConstants.{MAX_AHEAD};

    ghost Value = { ReadAhead };

    ghost view = { λ a. record {
      held = take (a.end - a.start) (drop a.start a.buffer);
      offset = a.offset;
    } };

    ghost invariant = { λ a. (a.start ≤ a.end) × (a.end ≤ MAX_AHEAD) };
}

impl Ahead {
    /// Nothing is read ahead, and the next byte is the first of the input. It takes no memory.
    pub fn new() -> Ahead
        ensures held { result.held ≡ [] }
        ensures offset { result.offset ≡ 0 }
    {
        Ahead {
            buffer: [0; MAX_AHEAD],
            start: 0,
            end: 0,
            offset: 0,
        }
    }

    /// How many bytes of the input were taken: the offset of the next byte. At most 4,096 bytes are
    /// held from there on.
    pub fn offset(&self) -> u64
        ensures offset { result ≡ self.now.offset }
        ensures fits { length self.now.held ≤ MAX_AHEAD }
    {
        self.offset
    }

    /// Whether a whole line is held, so that a line can be read without reading the source. It takes
    /// no memory.
    pub fn has_line(&self) -> bool
        ensures { IsTrue result ↔ Contains self.now.held 10 }
    {
        self.held().contains(&b'\n')
    }

    pub(crate) fn held(&self) -> &[u8]
        ensures { result.now ≡ self.now.held }
    {
        &self.buffer[self.start..self.end]
    }

    pub(crate) fn is_empty(&self) -> bool
        ensures { IsTrue result ↔ (self.now.held ≡ []) }
    {
        self.start == self.end
    }

    pub(crate) fn skip(&mut self, count: usize)
        requires held { count ≤ length self.old.held }
        requires room { self.old.offset + count < 2 ^ 64 }
        ensures held { self.new.held ≡ drop count self.old.held }
        ensures offset { self.new.offset ≡ self.old.offset + count }
    {
        self.start += count;
        self.offset += count as u64;
    }

    fn take_byte(&mut self) -> u8
        requires held { 0 < length self.old.held }
        requires room { self.old.offset + 1 < 2 ^ 64 }
        ensures held { self.old.held ≡ result ∷ self.new.held }
        ensures offset { self.new.offset ≡ self.old.offset + 1 }
    {
        let byte = self.buffer[self.start];
        self.start += 1;
        self.offset += 1;
        byte
    }
}

fn fill<S: Source>(source: &mut S, ahead: &mut Ahead) -> Result<(), Failed>
    requires held { ahead.old.held ≡ [] }
    ensures cause { HasCause (S.faults source.old) (S.faults source.new) (IsErr result) }
    ensures bytes { Stays (coming ahead.old (S.left source.old))
        (coming ahead.new (S.left source.new)) }
    ensures offset { ahead.new.offset ≡ ahead.old.offset }
    ensures ok { OnOk result (ahead.new.held ≡ [] → IsAtEnd (S.left source.new)) }
    ensures err { OnErr result (ahead.new.held ≡ []) }
{
    ahead.start = 0;
    ahead.end = 0;
    let count = source.read(&mut ahead.buffer)?;
    ahead.end = count;
    Ok(())
}

/// Reads ahead where nothing is held. Nothing is held behind it only at the end, or where the read
/// failed.
pub(crate) fn refill<S: Source>(source: &mut S, ahead: &mut Ahead) -> Result<(), Failed>
    ensures cause { HasCause (S.faults source.old) (S.faults source.new) (IsErr result) }
    ensures bytes { Stays (coming ahead.old (S.left source.old))
        (coming ahead.new (S.left source.new)) }
    ensures offset { ahead.new.offset ≡ ahead.old.offset }
    ensures ok { OnOk result (ahead.new.held ≡ [] → IsAtEnd (S.left source.new)) }
    ensures err { OnErr result (ahead.new.held ≡ []) }
{
    if ahead.is_empty() {
        return fill(source, ahead);
    }
    Ok(())
}

/// Takes the next byte, or nothing at the end.
pub(crate) fn next_byte<S: Source>(source: &mut S, ahead: &mut Ahead) -> Result<Option<u8>, Failed>
    requires room { ahead.old.offset + 1 < 2 ^ 64 }
    ensures cause { HasCause (S.faults source.old) (S.faults source.new) (IsErr result) }
    ensures bytes { MatchResult result
        (λ next. TakesNext (coming ahead.old (S.left source.old))
        (coming ahead.new (S.left source.new)) next)
        (λ _. Stays (coming ahead.old (S.left source.old)) (coming ahead.new (S.left source.new))) }
    ensures offset { MatchResult result
        (λ next. MatchOption next (ahead.new.offset ≡ ahead.old.offset)
        (λ _. ahead.new.offset ≡ ahead.old.offset + 1))
        (λ _. ahead.new.offset ≡ ahead.old.offset) }
    ensures err { OnErr result (ahead.new.held ≡ []) }
{
    refill(source, ahead)?;
    if ahead.is_empty() {
        return Ok(None);
    }
    Ok(Some(ahead.take_byte()))
}
