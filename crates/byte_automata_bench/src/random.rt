//! Numbers that look random and are the same at each run.

ghost use Rattle.std.specs.Prelude.{◌<◌};

/// A generator of numbers: a linear congruence, of whose results the upper half is taken.
#[derive(Drop)]
pub(crate) struct Random {
    pub(crate) seed: u32,
}

impl Random {
    /// The next number of 16 bits.
    fn half(&mut self) -> u32 {
        self.seed = self.seed.wrapping_mul(1664525).wrapping_add(1013904223);
        self.seed >> 16
    }

    /// The next number below the bound.
    pub(crate) fn below(&mut self, bound: u32) -> u32
        requires { 0 < bound }
        ensures { result < bound }
    {
        let high = self.half();
        let low = self.half();
        (high << 16 | low) % bound
    }
}
