//! A line of at most `N` bytes, and the call that reads one.
ghost use Rattle.std.specs.Prelude.{◌≡◌, ℕ, ◌+◌, ◌<◌, ◌≤◌, ◌^◌, [], ◌∷◌, ◌++◌, IsErr, IfOk};
ghost use Rattle.std.specs.Prelude.{IfErr, length};
ghost use Rattle.cyk_io.specs.Causes.{HasCause};
ghost use Rattle.cyk_io.specs.Lines.{LineReads, LineFails};
ghost use Rattle.cyk_io.specs.Streams.{coming};

use crate::ahead::next_byte;
use crate::{Ahead, IoFault, Source};
use std::marker::Model;

/// At most `N` bytes, seen as their list.
#[derive(Drop)]
pub struct Line<const N: usize> {
    bytes: [u8; N],
    len: usize,
}

impl<const N: usize> Model for Line<N> {
    ghost use Rattle.std.specs.Prelude.{List, ℕ, take, ◌≤◌};

    ghost Value = { List ℕ };

    ghost view = { λ l. take l.len l.bytes };

    ghost invariant = { λ l. l.len ≤ N };
}

impl<const N: usize> Line<N> {
    /// The empty line. It takes no memory.
    pub fn new() -> Line<N>
        ensures { result ≡ [] }
    {
        Line {
            bytes: [0; N],
            len: 0,
        }
    }

    /// The bytes of the line, without an LF. It takes no memory.
    pub fn as_bytes(&self) -> &[u8]
        ensures bytes { result.now ≡ self.now }
        ensures fits { length self.now ≤ N }
    {
        &self.bytes[..self.len]
    }

    fn clear(&mut self)
        ensures { self.new ≡ [] }
    {
        self.len = 0;
    }

    fn push(&mut self, byte: u8)
        requires { length self.old < N }
        ensures { self.new ≡ self.old ++ byte ∷ [] }
    {
        self.bytes[self.len] = byte;
        self.len += 1;
    }
}

/// What a read of a line found. Offsets are in bytes from the start of the input.
#[derive(Clone, Copy, Debug, PartialEq, Eq)]
pub enum ReadLine {
    /// A line, which is taken with its LF.
    Line,
    /// More bytes with no LF than a line may have. It names the offset of the first of them.
    LongLine(u64),
    /// The input ends with no LF. It names the input's length.
    Ended(u64),
}

/// Reads the bytes up to the next LF into `line`, which is emptied first, and goes past the LF. It
/// takes no memory, and `Read` is the one fault that it answers: the bytes taken till then stand in
/// `line`, and the next read goes on behind them.
pub fn read_line<S: Source, const N: usize>(
    source: &mut S,
    ahead: &mut Ahead,
    line: &mut Line<N>,
) -> Result<ReadLine, IoFault>
    requires room { ahead.old.offset + N < 2 ^ 63 }
    ensures ok { IfOk result (LineReads N ahead.old.offset ahead.new.offset
        (coming ahead.old (S.left source.old)) (coming ahead.new (S.left source.new)) line.new) }
    ensures err { IfErr result (LineFails N ahead.old.offset ahead.new
        (coming ahead.old (S.left source.old)) (S.left source.new) line.new) }
    ensures cause { HasCause (S.faults source.old) (S.faults source.new) (IsErr result) }
{
    let start = ahead.offset();
    line.clear();
    for _count in 0..N {
        match next_byte(source, ahead) {
            Err(_) => return Err(IoFault::Read),
            Ok(None) => return Ok(ReadLine::Ended(ahead.offset())),
            Ok(Some(b'\n')) => return Ok(ReadLine::Line),
            Ok(Some(byte)) => line.push(byte),
        }
    }
    match next_byte(source, ahead) {
        Err(_) => Err(IoFault::Read),
        Ok(None) => Ok(ReadLine::Ended(ahead.offset())),
        Ok(Some(b'\n')) => Ok(ReadLine::Line),
        Ok(Some(_)) => Ok(ReadLine::LongLine(start)),
    }
}
