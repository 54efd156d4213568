//! A source and a sink over memory that move bytes in pieces, and fail at the calls that they are
//! told.
ghost use Rattle.std.specs.Prelude.{◌≡◌, ◌↔◌, ℕ, ◌+◌, ◌-◌, ◌^◌, ◌≤◌, [], IsTrue, IsErr, IsErrOf};
ghost use Rattle.std.specs.Prelude.{IfOk, min, Contains};
ghost use Rattle.cyk_io.specs.Causes.{HasCause, HasRisen};
ghost use Rattle.cyk_io.specs.Pieces.{FailsWhereListed, in_pieces};
ghost use Rattle.cyk_io.specs.Streams.{Reads, Writes};

use crate::{CleanSink, CleanSource, Failed, Sink, SinkFault, Source};
use std::alloc::Global;
use std::marker::Model;

#[derive(Drop)]
struct FaultPlan {
    fail_at: Vec<u64>,
    calls: u64,
    faults: u64,
}

impl FaultPlan {
    fn new(fail_at: Vec<u64>) -> FaultPlan
        ensures { result ≡ record { fail_at = fail_at; calls = 0; faults = 0 } }
    {
        FaultPlan {
            fail_at,
            calls: 0,
            faults: 0,
        }
    }

    /// Counts a call, and whether it is to fail.
    fn call_fails(&mut self) -> bool
        ensures calls { self.new.calls ≡ min (self.old.calls + 1) (2 ^ 64 - 1) }
        ensures fails { IsTrue result ↔ Contains self.old.fail_at.items self.new.calls }
        ensures fail_at { self.new.fail_at ≡ self.old.fail_at }
        ensures cause { HasCause self.old.faults self.new.faults (IsTrue result) }
    {
        self.calls = self.calls.saturating_add(1);
        let fails = self.fail_at.as_slice().contains(&self.calls);
        if fails {
            self.faults = self.faults.saturating_add(1);
        }
        fails
    }
}

/// A source over bytes that gives them in pieces, and fails at some reads. A read that fails takes
/// nothing.
#[derive(Drop)]
pub struct ByteSource {
    bytes: CleanSource,
    piece: usize,
    plan: FaultPlan,
}

impl Model for ByteSource {
    ghost use Rattle.std.specs.Prelude.{◌<◌};
    ghost use Rattle.cyk_io.specs.Pieces.{InPieces};

    ghost Value = { InPieces };

    ghost view = { λ s. record {
      bytes = s.bytes;
      piece = s.piece;
      fail_at = s.plan.fail_at.items;
      calls = s.plan.calls;
      faults = s.plan.faults;
    } };

    ghost invariant = { λ s. 0 < s.piece };
}

impl ByteSource {
    /// Gives at most `piece` bytes a read, and fails the reads whose numbers, from 1, stand in
    /// `fail_at`, in any order. It takes no memory.
    pub fn new(bytes: Vec<u8>, piece: usize, fail_at: Vec<u64>) -> ByteSource
        requires { 1 ≤ piece }
        ensures { result ≡ in_pieces bytes.items piece fail_at.items }
    {
        ByteSource {
            bytes: CleanSource::new(bytes),
            piece,
            plan: FaultPlan::new(fail_at),
        }
    }
}

impl Source for ByteSource {
    ghost use Rattle.std.specs.Prelude.{Some};

    ghost left = { λ source. Some source.bytes };

    ghost faults = { λ source. source.faults };

    fn read(&mut self, into: &mut [u8]) -> Result<usize, Failed>
        ensures bytes { Reads (Some self.old.bytes) (Some self.new.bytes) result into.new }
        ensures cause { HasCause self.old.faults self.new.faults (IsErr result) }
        ensures fits { IfOk result (λ count. count ≤ self.old.piece) }
        ensures fails { FailsWhereListed self.old self.new (IsErr result) }
    {
        if self.plan.call_fails() {
            return Err(Failed);
        }
        let most = into.len().min(self.piece);
        self.bytes.read(&mut into[..most])
    }
}

/// A sink over memory that takes bytes in pieces, and fails at some writes. A write that fails
/// appends nothing.
#[derive(Drop)]
pub struct ByteSink {
    bytes: CleanSink,
    piece: usize,
    plan: FaultPlan,
}

impl Model for ByteSink {
    ghost use Rattle.std.specs.Prelude.{◌<◌};
    ghost use Rattle.cyk_io.specs.Pieces.{InPieces};

    ghost Value = { InPieces };

    ghost view = { λ s. record {
      bytes = s.bytes;
      piece = s.piece;
      fail_at = s.plan.fail_at.items;
      calls = s.plan.calls;
      faults = s.plan.faults;
    } };

    ghost invariant = { λ s. 0 < s.piece };
}

impl ByteSink {
    /// Takes at most `piece` bytes a write, and fails the writes whose numbers, from 1, stand in
    /// `fail_at`, in any order. `alloc` serves the writes.
    pub fn new(alloc: Global, piece: usize, fail_at: Vec<u64>) -> ByteSink
        requires { 1 ≤ piece }
        ensures { result ≡ in_pieces [] piece fail_at.items }
    {
        ByteSink {
            bytes: CleanSink::new(alloc),
            piece,
            plan: FaultPlan::new(fail_at),
        }
    }

    /// The bytes written so far. It takes no memory.
    pub fn as_bytes(&self) -> &[u8]
        ensures { result.now ≡ self.now.bytes }
    {
        self.bytes.as_bytes()
    }
}

impl Sink for ByteSink {
    ghost use Rattle.std.specs.Prelude.{Some};

    ghost written = { λ sink. Some sink.bytes };

    ghost faults = { λ sink. sink.faults };

    fn write(&mut self, from: &[u8]) -> Result<usize, SinkFault>
        ensures bytes { Writes (Some self.old.bytes) (Some self.new.bytes) result from.now }
        ensures cause { HasCause self.old.faults self.new.faults (IsErrOf result SinkFault.Failed) }
        ensures fits { IfOk result (λ count. count ≤ self.old.piece) }
        ensures fails { FailsWhereListed self.old self.new (IsErrOf result SinkFault.Failed) }
    {
        if self.plan.call_fails() {
            return Err(SinkFault::Failed);
        }
        let most = from.len().min(self.piece);
        self.bytes.write(&from[..most])
    }
}
