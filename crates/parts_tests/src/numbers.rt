//! Numbers that look like chance and are the same in every run.
ghost use Rattle.std.specs.Prelude.{◌≤◌, ◌<◌};

/// A linear congruential generator (the constants of Knuth's MMIX), whose upper bits are taken.
#[derive(Drop)]
pub(crate) struct Numbers {
    state: u64,
}

impl Numbers {
    /// Those that begin from a seed.
    pub(crate) fn from_seed(seed: u64) -> Numbers {
        Numbers { state: seed }
    }

    /// The next one below an end.
    pub(crate) fn below(&mut self, end: u32) -> u32
        requires { 1 ≤ end }
        ensures { result < end }
    {
        self.state = self
            .state
            .wrapping_mul(6_364_136_223_846_793_005)
            .wrapping_add(1_442_695_040_888_963_407);
        (self.state >> 33) as u32 % end
    }
}
