//! A set of symbols that is a row of bits.
ghost use Rattle.std.specs.Prelude.{◌≡◌, ℕ, ◌*◌, ◌≤◌, refl};
ghost use Rattle.cell_sets.specs.Words.{symbols_of};

use crate::words::{
    are_zero, has_bit, have_common_bit, have_same_bits, keep_bits, next_bit, set_bit, set_bits,
};
use crate::{Cell, Room};
use std::alloc::{AllocError, Global};

/// A number of words that a row of bits may have.
pub trait Width<const W: usize> {
    /// How many bits the words have.
    const ROOM: u32;

    /// The same number, for contracts.
    ghost ROOM: { ℕ };

    /// There are few enough words that each bit has a number of 16 bits.
    fn fits()
        ensures { W ≤ 1024 };

    ghost room: { ROOM ≡ 64 * W };
}

/// The numbers of words that a row of bits may have: 1, 2, 4, 8, 16 and 32.
pub struct Words {}

impl Width<1> for Words {
    const ROOM: u32 = 64;

    ghost ROOM = { 64 };

    ghost room = { refl };

    fn fits() {}
}

impl Width<2> for Words {
    const ROOM: u32 = 128;

    ghost ROOM = { 128 };

    ghost room = { refl };

    fn fits() {}
}

impl Width<4> for Words {
    const ROOM: u32 = 256;

    ghost ROOM = { 256 };

    ghost room = { refl };

    fn fits() {}
}

impl Width<8> for Words {
    const ROOM: u32 = 512;

    ghost ROOM = { 512 };

    ghost room = { refl };

    fn fits() {}
}

impl Width<16> for Words {
    const ROOM: u32 = 1024;

    ghost ROOM = { 1024 };

    ghost room = { refl };

    fn fits() {}
}

impl Width<32> for Words {
    const ROOM: u32 = 2048;

    ghost ROOM = { 2048 };

    ghost room = { refl };

    fn fits() {}
}

/// A set of symbols as bits, 64 in a word. No call takes memory.
#[derive(Clone, Copy)]
pub struct Bits<const W: usize> {
    words: [u64; W],
}

impl<const W: usize> Room for Bits<W>
where
    Words: Width<W>,
{
    const ROOM: u32 = <Words as Width<W>>::ROOM;

    ghost ROOM = { 64 * W };
}

impl<const W: usize> Cell for Bits<W>
where
    Words: Width<W>,
{
    ghost symbols = { λ c. symbols_of c.words };

    fn empty() -> Self {
        Bits { words: [0; W] }
    }

    fn is_empty(&self) -> bool {
        are_zero(&self.words)
    }

    fn has(&self, symbol: u16) -> bool {
        has_bit(&self.words, symbol)
    }

    fn next_from(&self, symbol: u16) -> Option<u16> {
        <Words as Width<W>>::fits();
        next_bit(&self.words, symbol)
    }

    fn insert(&mut self, _alloc: Global, symbol: u16) -> Result<bool, AllocError> {
        Ok(set_bit(&mut self.words, symbol))
    }

    fn union(&self, _alloc: Global, other: &Self) -> Result<Self, AllocError> {
        let mut both = *self;
        set_bits(&mut both.words, &other.words);
        Ok(both)
    }

    fn meets(&self, other: &Self) -> bool {
        have_common_bit(&self.words, &other.words)
    }

    fn common(&self, _alloc: Global, other: &Self) -> Result<Self, AllocError> {
        let mut common = *self;
        keep_bits(&mut common.words, &other.words);
        Ok(common)
    }

    fn same(&self, other: &Self) -> bool {
        have_same_bits(&self.words, &other.words)
    }
}
