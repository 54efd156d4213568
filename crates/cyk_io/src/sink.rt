//! What bytes are written to, and a write of all of them.
ghost use Rattle.std.specs.Prelude.{ℕ, List, Option, OnOk, OnErr, IsErrOf};
ghost use Rattle.cyk_io.specs.Causes.{HasCause};
ghost use Rattle.cyk_io.specs.Streams.{Grows, GrowsByPrefix, Writes};

use crate::IoFault;

/// Why a write failed. Nothing of it was written.
#[derive(Clone, Copy, Debug, PartialEq, Eq)]
pub enum SinkFault {
    /// The sink failed, and counted it.
    Failed,
    /// The sink had no memory for the bytes.
    Memory,
}

/// What bytes are written to.
pub trait Sink {
    /// The bytes that were written, where the sink tells them.
    ghost written: { Self → Option (List ℕ) };

    /// How many writes have failed, up to 2^64 - 1. A want of memory is not counted.
    ghost faults: { Self → ℕ };

    /// Writes a prefix of `from`, and answers how many bytes it has.
    fn write(&mut self, from: &[u8]) -> Result<usize, SinkFault>
        ensures bytes { Writes (written self.old) (written self.new) result from.now }
        ensures cause { HasCause (faults self.old) (faults self.new)
            (IsErrOf result SinkFault.Failed) };
}

/// Writes all bytes, by as many writes as the sink needs. After `Write` or `Memory` a prefix of the
/// bytes is written.
pub fn write_all_counted<K: Sink>(sink: &mut K, bytes: &[u8]) -> Result<(), IoFault>
    ensures ok { OnOk result (Grows (K.written sink.old) (K.written sink.new) bytes.now) }
    ensures err { OnErr result (GrowsByPrefix (K.written sink.old) (K.written sink.new) bytes.now) }
    ensures cause { HasCause (K.faults sink.old) (K.faults sink.new)
        (IsErrOf result IoFault.Write) }
    ensures read { IsErrOf result IoFault.Read → ⊥ }
{
    let mut at = 0;
    while at < bytes.len() {
        match sink.write(&bytes[at..]) {
            Ok(count) => at += count,
            Err(SinkFault::Failed) => return Err(IoFault::Write),
            Err(SinkFault::Memory) => return Err(IoFault::Memory),
        }
    }
    Ok(())
}
