ghost use Rattle.std.specs.Prelude.{◌≡◌, ◌+◌, ◌<◌, ◌^◌};

use std::marker::Model;

/// A count of steps, which contracts see as a number.
#[derive(Debug, Drop)]
pub struct Steps {
    count: u128,
}

impl Model for Steps {
    ghost use Rattle.std.specs.Prelude.{ℕ};

    ghost Value = { ℕ };

    ghost view = { λ s. s.count };
}

impl Steps {
    /// No steps.
    pub fn new() -> Steps
        ensures { result ≡ 0 }
    {
        Steps { count: 0 }
    }

    /// Counts one step more.
    #[inline]
    pub fn tick(&mut self)
        requires { self.old < 2 ^ 127 }
        ensures { self.new ≡ self.old + 1 }
    {
        self.count += 1;
    }

    /// The number of steps so far.
    #[inline]
    pub fn count(&self) -> u128
        ensures { result ≡ self.now }
    {
        self.count
    }
}
