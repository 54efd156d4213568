//! A source and a sink over memory that never fail.
ghost use Rattle.std.specs.Prelude.{◌≡◌, ℕ, [], length, min, take, Ok, IsErr, IfOk, IsErrOf, Some};
ghost use Rattle.cyk_io.specs.Causes.{HasCause};
ghost use Rattle.cyk_io.specs.Streams.{Reads, Writes};

use crate::{Failed, Sink, SinkFault, Source};
use std::alloc::Global;
use std::marker::Model;

/// A source over bytes that never fails, seen as the bytes that are left. It gives as many as are
/// asked for, or all that are left.
#[derive(Drop)]
pub struct CleanSource {
    bytes: Vec<u8>,
    at: usize,
}

impl Model for CleanSource {
    ghost use Rattle.std.specs.Prelude.{List, ℕ, drop, length, ◌≤◌};

    ghost Value = { List ℕ };

    ghost view = { λ s. drop s.at s.bytes.items };

    ghost invariant = { λ s. s.at ≤ length s.bytes.items };
}

impl CleanSource {
    /// All bytes are left. It takes no memory.
    pub fn new(bytes: Vec<u8>) -> CleanSource
        ensures { result ≡ bytes.items }
    {
        CleanSource { bytes, at: 0 }
    }
}

fn copy_front(from: &[u8], into: &mut [u8]) -> usize
    ensures count { result ≡ min (length from.now) (length into.old) }
    ensures bytes { take result into.new ≡ take result from.now }
{
    let count = from.len().min(into.len());
    into[..count].copy_from_slice(&from[..count]);
    count
}

impl Source for CleanSource {
    ghost use Rattle.std.specs.Prelude.{Some};

    ghost left = { λ left. Some left };

    ghost faults = { λ _. 0 };

    fn read(&mut self, into: &mut [u8]) -> Result<usize, Failed>
        ensures bytes { Reads (Some self.old) (Some self.new) result into.new }
        ensures cause { HasCause 0 0 (IsErr result) }
        ensures whole { result ≡ Ok (min (length self.old) (length into.old)) }
    {
        let count = copy_front(&self.bytes.as_slice()[self.at..], into);
        self.at += count;
        Ok(count)
    }
}

/// A sink over memory that never fails, seen as the bytes written so far. It takes all that it is
/// given, where there is memory.
#[derive(Drop)]
pub struct CleanSink {
    bytes: Vec<u8>,
}

impl Model for CleanSink {
    ghost use Rattle.std.specs.Prelude.{List, ℕ};

    ghost Value = { List ℕ };

    ghost view = { λ s. s.bytes.items };
}

impl CleanSink {
    /// Nothing is written. `alloc` serves the writes.
    pub fn new(alloc: Global) -> CleanSink
        ensures { result ≡ [] }
    {
        CleanSink {
            bytes: Vec::new(alloc),
        }
    }

    /// The bytes written so far. It takes no memory.
    pub fn as_bytes(&self) -> &[u8]
        ensures { result.now ≡ self.now }
    {
        self.bytes.as_slice()
    }
}

impl Sink for CleanSink {
    ghost use Rattle.std.specs.Prelude.{Some};

    ghost written = { λ written. Some written };

    ghost faults = { λ _. 0 };

    fn write(&mut self, from: &[u8]) -> Result<usize, SinkFault>
        ensures bytes { Writes (Some self.old) (Some self.new) result from.now }
        ensures cause { HasCause 0 0 (IsErrOf result SinkFault.Failed) }
        ensures whole { IfOk result (λ count. count ≡ length from.now) }
    {
        match self.bytes.extend_from_slice(from) {
            Ok(()) => Ok(from.len()),
            Err(_) => Err(SinkFault::Memory),
        }
    }
}
