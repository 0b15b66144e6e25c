//! Numbers without order, the same at each run.

/// A linear congruential generator modulo 2^64, from 1 on.
#[derive(Clone, Copy)]
pub struct Random {
    state: u64,
}

impl Random {
    /// The first of them.
    pub fn new() -> Random {
        Random { state: 1 }
    }

    /// The next number, below 2^31.
    pub fn next(&mut self) -> u64 {
        self.state = self
            .state
            .wrapping_mul(6_364_136_223_846_793_005)
            .wrapping_add(1_442_695_040_888_963_407);
        self.state >> 33
    }
}
