//! A block of so many bytes, which is kept or passed over.
ghost use Rattle.std.specs.Prelude.{◌≡◌, ℕ, ◌+◌, ◌-◌, ◌<◌, ◌≤◌, ◌^◌, [], IsTrue, IfOk, IfErr};
ghost use Rattle.std.specs.Prelude.{IsErrOf, take, drop, length, vec_capacity, vec_len};
ghost use Rattle.cyk_io.specs.Blocks.{BlockReads, BlockFails};
ghost use Rattle.cyk_io.specs.Causes.{HasCause};
ghost use Rattle.cyk_io.specs.Streams.{coming};
ghost use Rattle.cyk_io.specs.KeptBytes.{kept_more};

use crate::ahead::refill;
use crate::{Ahead, IoFault, Source};

/// What a read of a block found.
#[derive(Clone, Copy, Debug, PartialEq, Eq)]
pub enum ReadBlock {
    /// The block was taken and kept.
    Kept,
    /// The block was taken, and is too long to be kept.
    Skipped,
    /// The input ends within the block. It names the input's length in bytes.
    Ended(u64),
}

fn take_held(ahead: &mut Ahead, most: usize, kept: bool, into: &mut Vec<u8>) -> usize
    requires held { 0 < length ahead.old.held }
    requires some { 0 < most }
    requires room { ahead.old.offset + most < 2 ^ 63 }
    requires fits { IsTrue kept → vec_len into.old + most ≤ vec_capacity into.old }
    ensures count { (0 < result) × (result ≤ most) × (result ≤ length ahead.old.held) }
    ensures held { ahead.new.held ≡ drop result ahead.old.held }
    ensures offset { ahead.new.offset ≡ ahead.old.offset + result }
    ensures items { into.new.items ≡ kept_more kept into.old.items (take result ahead.old.held) }
    ensures fits { IsTrue kept → vec_len into.new + (most - result) ≤ vec_capacity into.new }
{
    let held = ahead.held();
    let count = held.len().min(most);
    if kept {
        // There is room, so that it can't fail.
        let _ = into.extend_from_slice(&held[..count]);
    }
    ahead.skip(count);
    count
}

/// Reads a block of `count` bytes. One of at most `keep` bytes is kept: `into` is the block and
/// nothing else, and room for it is reserved before anything is read. Of a longer one nothing is
/// kept, and it takes no memory. `Write` never comes.
pub fn read_exact_n<S: Source>(
    source: &mut S,
    ahead: &mut Ahead,
    count: u64,
    keep: u64,
    into: &mut Vec<u8>,
) -> Result<ReadBlock, IoFault>
    requires room { ahead.old.offset + count < 2 ^ 63 }
    ensures ok { IfOk result (BlockReads count keep ahead.old.offset ahead.new.offset
        (coming ahead.old (S.left source.old)) (coming ahead.new (S.left source.new))
        into.new.items) }
    ensures err { IfErr result (BlockFails count keep ahead.old.offset ahead.new
        (coming ahead.old (S.left source.old)) (coming ahead.new (S.left source.new))
        (S.left source.new)) }
    ensures cause { HasCause (S.faults source.old) (S.faults source.new)
        (IsErrOf result IoFault.Read) }
{
    into.clear();
    let kept = count <= keep;
    if kept && into.reserve(count as usize).is_err() {
        return Err(IoFault::Memory);
    }
    let mut rest = count as usize;
    while rest > 0 {
        if refill(source, ahead).is_err() {
            return Err(IoFault::Read);
        }
        if ahead.is_empty() {
            return Ok(ReadBlock::Ended(ahead.offset()));
        }
        rest -= take_held(ahead, rest, kept, into);
    }
    Ok(if kept {
        ReadBlock::Kept
    } else {
        ReadBlock::Skipped
    })
}
