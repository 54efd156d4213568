//! What bytes are read from. Only a source that tells its bytes says which bytes come.
ghost use Rattle.std.specs.Prelude.{ℕ, List, Option, IsErr};
ghost use Rattle.cyk_io.specs.Causes.{HasCause};
ghost use Rattle.cyk_io.specs.Streams.{Reads};

/// A read failed. What was left is still left.
#[derive(Clone, Copy, Debug, PartialEq, Eq)]
pub struct Failed;

/// What bytes are read from.
pub trait Source {
    /// The bytes that are left, where the source tells them.
    ghost left: { Self → Option (List ℕ) };

    /// How many reads have failed, up to 2^64 - 1.
    ghost faults: { Self → ℕ };

    /// Reads bytes into the front of `into`, and answers how many. Where `into` has room, 0 means
    /// the end.
    fn read(&mut self, into: &mut [u8]) -> Result<usize, Failed>
        ensures bytes { Reads (left self.old) (left self.new) result into.new }
        ensures cause { HasCause (faults self.old) (faults self.new) (IsErr result) };
}
