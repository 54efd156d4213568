//! Bytes that are gathered, so that many small pieces go to a sink together.
ghost use Rattle.std.specs.Prelude.{◌≡◌, ◌++◌, [], IsTrue, IsFalse, IsErrOf, OnOk, OnErr};
ghost use Rattle.cyk_io.specs.Causes.{HasCause};
ghost use Rattle.cyk_io.specs.Streams.{Grows, GrowsByPrefix};
ghost use Rattle.cyk_io.specs.Gathering.{Passes};

use crate::{IoFault, Sink, write_all_counted};
use arrayvec::ArrayVec;
use std::marker::Model;

/// The most bytes that are gathered.
const MAX_GATHERED: usize = 4096;

/// What was added and is not written yet: at most 4,096 bytes, seen as their list. After an error
/// nothing more may be added, since a part of the bytes may be written.
#[derive(Drop)]
pub struct Gathered {
    bytes: ArrayVec<u8, MAX_GATHERED>,
}

impl Model for Gathered {
    ghost use Rattle.std.specs.Prelude.{List, ℕ};

    ghost Value = { List ℕ };

    ghost view = { λ g. g.bytes.items };
}

impl Gathered {
    /// Nothing is gathered. It takes no memory.
    pub fn new() -> Gathered
        ensures { result ≡ [] }
    {
        Gathered {
            bytes: ArrayVec::new(),
        }
    }

    /// Gathers the bytes where they fit behind those that are gathered, and answers whether.
    fn gather(&mut self, bytes: &[u8]) -> bool
        ensures yes { IsTrue result → self.new ≡ self.old ++ bytes.now }
        ensures no { IsFalse result → self.new ≡ self.old }
    {
        self.bytes.try_extend_from_slice(bytes).is_ok()
    }

    /// Writes what is gathered.
    pub fn flush<K: Sink>(&mut self, sink: &mut K) -> Result<(), IoFault>
        ensures empty { self.new ≡ [] }
        ensures ok { OnOk result (Grows (K.written sink.old) (K.written sink.new) self.old) }
        ensures err { OnErr result
            (GrowsByPrefix (K.written sink.old) (K.written sink.new) self.old) }
        ensures cause { HasCause (K.faults sink.old) (K.faults sink.new)
            (IsErrOf result IoFault.Write) }
        ensures read { IsErrOf result IoFault.Read → ⊥ }
    {
        let written = write_all_counted(sink, self.bytes.as_slice());
        self.bytes.clear();
        written
    }

    /// Gathers the bytes. Where they don't fit, what was gathered is written first, and so are they
    /// where they are more than can be gathered. So no bytes are cut between two writes but those
    /// that are more.
    pub fn add<K: Sink>(&mut self, sink: &mut K, bytes: &[u8]) -> Result<(), IoFault>
        ensures ok { OnOk result
            (Passes (K.written sink.old) (K.written sink.new) self.old bytes.now self.new) }
        ensures err { OnErr result
            (GrowsByPrefix (K.written sink.old) (K.written sink.new) (self.old ++ bytes.now)) }
        ensures cause { HasCause (K.faults sink.old) (K.faults sink.new)
            (IsErrOf result IoFault.Write) }
        ensures read { IsErrOf result IoFault.Read → ⊥ }
    {
        if self.gather(bytes) {
            return Ok(());
        }
        self.flush(sink)?;
        if self.gather(bytes) {
            return Ok(());
        }
        write_all_counted(sink, bytes)
    }
}
