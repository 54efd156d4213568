//! Sets of symbols as the bits of words, 64 symbols to a word.
ghost use Rattle.std.specs.Prelude.{◌≡◌, ℕ, ◌*◌, ◌<◌, ◌≤◌, ◌↔◌, [], length, IsTrue};
ghost use Rattle.std.specs.List.{Contains};
ghost use Rattle.cell_sets.specs.Cells.{AddsSymbol, IsUnion, Meet, IsCommon, HaveSame, IsNextFrom};
ghost use Rattle.cell_sets.specs.Words.{IsFirstBit, symbols_of};

pub(crate) fn are_zero(words: &[u64]) -> bool
    ensures { IsTrue result ↔ (symbols_of words.now ≡ []) }
{
    for k in 0..words.len() {
        if words[k] != 0 {
            return false;
        }
    }
    true
}

pub(crate) fn has_bit(words: &[u64], symbol: u16) -> bool
    requires { symbol < 64 * length words.now }
    ensures { IsTrue result ↔ Contains (symbols_of words.now) symbol }
{
    words[symbol as usize / 64] >> (symbol % 64) & 1 == 1
}

/// The first bit that is set, from this place on.
fn first_bit(word: u64, from: u32) -> Option<u32>
    requires { from < 64 }
    ensures { IsFirstBit word from result }
{
    let left = word >> from;
    if left == 0 {
        return None;
    }
    Some(from + left.trailing_zeros())
}

pub(crate) fn next_bit(words: &[u64], symbol: u16) -> Option<u16>
    requires { length words.now ≤ 1024 }
    ensures { IsNextFrom (symbols_of words.now) symbol result }
{
    let mut k = symbol as usize / 64;
    let mut from = symbol as u32 % 64;
    while k < words.len() {
        if let Some(bit) = first_bit(words[k], from) {
            return Some((64 * k + bit as usize) as u16);
        }
        k += 1;
        from = 0;
    }
    None
}

/// Sets the symbol's bit, and answers whether it was not set before.
pub(crate) fn set_bit(words: &mut [u64], symbol: u16) -> bool
    requires { symbol < 64 * length words.old }
    ensures adds { AddsSymbol (symbols_of words.old) (symbols_of words.new) symbol }
    ensures new { IsTrue result ↔ (Contains (symbols_of words.old) symbol → ⊥) }
{
    let new = !has_bit(words, symbol);
    words[symbol as usize / 64] |= 1u64 << (symbol % 64);
    new
}

/// Sets the bits that the others have.
pub(crate) fn set_bits(words: &mut [u64], others: &[u64])
    requires { length words.old ≡ length others.now }
    ensures { IsUnion (symbols_of words.old) (symbols_of others.now) (symbols_of words.new) }
{
    for k in 0..others.len() {
        words[k] |= others[k];
    }
}

/// Keeps the bits that the others have too.
pub(crate) fn keep_bits(words: &mut [u64], others: &[u64])
    requires { length words.old ≡ length others.now }
    ensures { IsCommon (symbols_of words.old) (symbols_of others.now) (symbols_of words.new) }
{
    for k in 0..others.len() {
        words[k] &= others[k];
    }
}

pub(crate) fn have_common_bit(left: &[u64], right: &[u64]) -> bool
    requires { length left.now ≡ length right.now }
    ensures { IsTrue result ↔ Meet (symbols_of left.now) (symbols_of right.now) }
{
    for k in 0..left.len() {
        if left[k] & right[k] != 0 {
            return true;
        }
    }
    false
}

pub(crate) fn have_same_bits(left: &[u64], right: &[u64]) -> bool
    requires { length left.now ≡ length right.now }
    ensures { IsTrue result ↔ HaveSame (symbols_of left.now) (symbols_of right.now) }
{
    for k in 0..left.len() {
        if left[k] != right[k] {
            return false;
        }
    }
    true
}
