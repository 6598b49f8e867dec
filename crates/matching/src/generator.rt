//! A generator of numbers, which gives the same numbers in every run.
ghost use Rattle.std.specs.Prelude.{◌<◌, ◌≤◌, max};

/// A linear congruential generator.
#[derive(Drop)]
pub struct Generator {
    state: u64,
}

impl Generator {
    /// The generator that starts from the seed.
    pub(crate) fn new(seed: u64) -> Generator {
        Generator { state: seed }
    }

    /// The next 32 bits.
    fn bits(&mut self) -> u32 {
        self.state = self
            .state
            .wrapping_mul(6_364_136_223_846_793_005)
            .wrapping_add(1_442_695_040_888_963_407);
        (self.state >> 32) as u32
    }

    /// A number below `most`; 0 where `most` is 0.
    pub(crate) fn below(&mut self, most: u32) -> u32
        ensures { (result ≤ most) × ((0 < most → result < most)) }
    {
        if most == 0 {
            return 0;
        }
        self.bits() % most
    }

    /// A number from `low` to `high`; `low` where `high` is below it.
    pub(crate) fn between(&mut self, low: u32, high: u32) -> u32
        ensures { (low ≤ result) × (result ≤ max low high) }
    {
        if high <= low {
            return low;
        }
        low + self.below((high - low).saturating_add(1))
    }

    /// Whether the one of `most` cases came up.
    pub(crate) fn one_in(&mut self, most: u32) -> bool {
        self.below(most) == 0
    }

    /// One of the numbers.
    pub(crate) fn pick(&mut self, numbers: &[u16; 8]) -> u16 {
        numbers[self.below(8) as usize]
    }

    /// A number below `most`, more often a small one; 0 where `most` is 0.
    pub(crate) fn small(&mut self, most: u32) -> u32 {
        let bound = self.between(1, most);
        self.below(bound)
    }
}
