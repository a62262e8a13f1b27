ghost use Rattle.std.specs.Prelude.{◌≡◌, ◌+◌, ◌<◌};

use std::marker::Model;

/// A count of ticks: steps of a computation, in which its costs are told. Contracts see it as the number.
#[derive(Debug, Drop)]
pub struct Ticks {
    count: u64,
}

impl Model for Ticks {
    ghost use Rattle.std.specs.Prelude.{ℕ};

    ghost Value = { ℕ };

    ghost view = { λ t. t.count };
}

impl Ticks {
    /// No tick yet.
    pub fn new() -> Ticks
        ensures none { result ≡ 0 }
    {
        Ticks { count: 0 }
    }

    /// One more tick. The count must be below `u64::MAX`.
    pub fn tick(&mut self)
        requires { self.old < u64.MAX }
        ensures { self.new ≡ self.old + 1 }
    {
        self.count += 1;
    }

    /// The number of ticks so far.
    pub fn count(&self) -> u64
        ensures { result ≡ self.now }
    {
        self.count
    }
}
