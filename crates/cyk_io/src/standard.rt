//! A source over any reader of std and a sink over any writer. They tell no bytes, since no
//! contract can say what a file or a terminal gives or takes, and count the faults that std
//! reports.
ghost use Rattle.std.specs.Prelude.{◌≡◌, ℕ, ◌≤◌, IfErr, IsErrOf};
ghost use Rattle.cyk_io.specs.Causes.{HasCause, HasRisen};
ghost use Rattle.cyk_io.specs.Streams.{Writes};

use crate::{Failed, Sink, SinkFault, Source};
use std::io::{Read, Write};
use std::marker::Model;

/// A source over any reader, seen as the count of its faults. It tells no bytes.
#[derive(Drop)]
pub struct StdSource<R: Read + Drop> {
    reader: R,
    faults: u64,
}

impl<R: Read + Drop> Model for StdSource<R> {
    ghost use Rattle.std.specs.Prelude.{ℕ};

    ghost Value = { ℕ };

    ghost view = { λ s. s.faults };
}

impl<R: Read + Drop> StdSource<R> {
    /// No read has failed. It takes no memory.
    pub fn new(reader: R) -> StdSource<R>
        ensures { result ≡ 0 }
    {
        StdSource { reader, faults: 0 }
    }
}

impl<R: Read + Drop> Source for StdSource<R> {
    ghost use Rattle.std.specs.Prelude.{None};

    ghost left = { λ _. None };

    ghost faults = { λ faults. faults };

    fn read(&mut self, into: &mut [u8]) -> Result<usize, Failed> {
        match self.reader.read(into) {
            Ok(count) => Ok(count),
            Err(_) => {
                self.faults = self.faults.saturating_add(1);
                Err(Failed)
            }
        }
    }
}

/// A sink over any writer, seen as the count of its faults. It tells no bytes, and flushes after
/// each write. A write that takes none of its bytes and a flush that fails are faults too.
#[derive(Drop)]
pub struct StdSink<W: Write + Drop> {
    writer: W,
    faults: u64,
}

impl<W: Write + Drop> Model for StdSink<W> {
    ghost use Rattle.std.specs.Prelude.{ℕ};

    ghost Value = { ℕ };

    ghost view = { λ s. s.faults };
}

impl<W: Write + Drop> StdSink<W> {
    /// No write has failed. It takes no memory.
    pub fn new(writer: W) -> StdSink<W>
        ensures { result ≡ 0 }
    {
        StdSink { writer, faults: 0 }
    }

    fn fail(&mut self) -> SinkFault
        ensures later { self.old ≤ self.new }
        ensures cause { HasRisen self.old self.new }
        ensures err { result ≡ SinkFault.Failed }
    {
        self.faults = self.faults.saturating_add(1);
        SinkFault::Failed
    }
}

impl<W: Write + Drop> Sink for StdSink<W> {
    ghost use Rattle.std.specs.Prelude.{None};

    ghost written = { λ _. None };

    ghost faults = { λ faults. faults };

    fn write(&mut self, from: &[u8]) -> Result<usize, SinkFault>
        ensures bytes { Writes None None result from.now }
        ensures cause { HasCause self.old self.new (IsErrOf result SinkFault.Failed) }
        ensures err { IfErr result (λ fault. fault ≡ SinkFault.Failed) }
    {
        let Ok(count) = self.writer.write(from) else {
            return Err(self.fail());
        };
        if count == 0 && !from.is_empty() {
            return Err(self.fail());
        }
        if self.writer.flush().is_err() {
            return Err(self.fail());
        }
        Ok(count)
    }
}
