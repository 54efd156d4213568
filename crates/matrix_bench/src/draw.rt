//! Numbers drawn from a seed.

/// The state of a draw: each seed has its own numbers.
#[derive(Clone, Copy)]
pub struct Draw {
    state: u64,
}

impl Draw {
    /// The draw of this seed.
    pub fn of(seed: u64) -> Draw {
        Draw { state: seed }
    }

    /// The next number below the limit, or 0 where the limit is 0: of a linear congruential
    /// generator modulo 2^64 (Knuth, The Art of Computer Programming, 3.3.4), the upper half.
    pub fn below(&mut self, limit: u32) -> u32 {
        self.state = self
            .state
            .wrapping_mul(6_364_136_223_846_793_005)
            .wrapping_add(1_442_695_040_888_963_407);
        let upper = self.state >> 32;
        if limit == 0 {
            return 0;
        }
        (upper % u64::from(limit)) as u32
    }
}
