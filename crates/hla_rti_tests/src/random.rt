//! Numbers without order, the same at each run.

ghost use Rattle.std.specs.Prelude.{◌<◌};

/// A linear congruential generator modulo 2^64.
#[derive(Clone, Copy)]
pub struct Random {
    state: u64,
}

impl Random {
    /// The numbers of a seed.
    pub fn new(seed: u64) -> Random {
        Random { state: seed }
    }

    /// The next number, below 2^31.
    pub fn next(&mut self) -> u64 {
        self.state = self
            .state
            .wrapping_mul(6_364_136_223_846_793_005)
            .wrapping_add(1_442_695_040_888_963_407);
        self.state >> 33
    }

    /// The next number, below another.
    pub fn below(&mut self, end: u32) -> u32
        requires { 0 < end }
        ensures { result < end }
    {
        (self.next() % u64::from(end)) as u32
    }

    /// A time that is not large.
    pub fn time(&mut self) -> u64 {
        u64::from(self.below(60))
    }

    /// A stamp, or none.
    pub fn stamp(&mut self) -> Option<u64> {
        if self.below(3) == 0 {
            None
        } else {
            Some(self.time())
        }
    }
}
