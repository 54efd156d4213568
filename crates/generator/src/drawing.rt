//! The numbers that a seed draws.
ghost use Rattle.std.specs.Prelude.{◌≡◌, ◌+◌};
ghost use Rattle.generator.specs.Draws.{answer_of, drawn, state_behind};

/// An odd number, 2^64 over the golden ratio.
const GROWTH: u64 = 0x9e37_79b9_7f4a_7c15;

// Each draw adds the same to the state, so no state before this one is made.
fn state_behind(seed: u64, number: u64) -> u64
    ensures { result ≡ state_behind seed (number + 1) }
{
    seed.wrapping_add(GROWTH)
        .wrapping_add(GROWTH.wrapping_mul(number))
}

fn answer_of(state: u64) -> u64
    ensures { result ≡ answer_of state }
{
    let once = (state ^ (state >> 30)).wrapping_mul(0xbf58_476d_1ce4_e5b9);
    let twice = (once ^ (once >> 27)).wrapping_mul(0x94d0_49bb_1331_11eb);
    twice ^ (twice >> 31)
}

/// The number of 64 bits that the seed draws under this number, from 0. Each may be asked for
/// alone: none before it is drawn.
pub fn drawn(seed: u64, number: u64) -> u64
    ensures { result ≡ drawn seed number }
{
    answer_of(state_behind(seed, number))
}
