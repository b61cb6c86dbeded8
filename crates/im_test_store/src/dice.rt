//! Chance, with a seed.
ghost use Rattle.std.specs.Prelude.{◌<◌};

/// Numbers by chance, of which one follows from the other.
#[derive(Drop)]
pub struct Dice {
    state: u64,
}

impl Dice {
    /// Those of a seed.
    pub fn of(seed: u64) -> Dice {
        Dice {
            state: seed.wrapping_mul(7_919).wrapping_add(1),
        }
    }

    /// One below n.
    pub fn below(&mut self, n: u64) -> u64
        requires { 0 < n }
        ensures { result < n }
    {
        self.state = self
            .state
            .wrapping_mul(6_364_136_223_846_793_005)
            .wrapping_add(1_442_695_040_888_963_407);
        (self.state >> 33) % n
    }
}
