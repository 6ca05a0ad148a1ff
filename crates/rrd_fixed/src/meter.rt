//! A counter of units of work.
ghost use Rattle.std.specs.Prelude.{◌≡◌, ℕ, ◌+◌, ◌^◌, ◌<◌};

use std::marker::Model;

/// A counter of units of work.
///
/// One unit is an addition to a partial step or row, the end of one, or a cell that is written into an archive.
#[derive(Clone, Copy, Debug, PartialEq, Eq)]
pub struct Meter {
    turns: u64,
}

impl Model for Meter {
    ghost Value = { ℕ };

    ghost view = { λ m. m.turns };

    ghost inverse = { λ n. record { turns = n } };
}

impl Meter {
    /// Creates a counter at 0.
    pub fn new() -> Meter
        ensures { result ≡ 0 }
    {
        Meter { turns: 0 }
    }

    /// Adds one unit of work.
    pub fn tick(&mut self)
        requires { self.old + 1 < 2 ^ 64 }
        ensures { self.new ≡ self.old + 1 }
    {
        self.turns += 1;
    }

    /// Returns the number of units of work.
    pub fn turns(&self) -> u64
        ensures { result ≡ self.now }
    {
        self.turns
    }
}
