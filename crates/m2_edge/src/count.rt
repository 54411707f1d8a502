//! A count that never falls.

ghost use Rattle.std.specs.Prelude.{◌≡◌};
ghost use Rattle.m2_edge.specs.Faults.{next_count};

use std::marker::Model;

/// A count that starts at 0, rises by one each time, and stands still at the end of 64 bits.
/// Contracts see the number.
#[derive(Debug, Drop)]
pub struct Count {
    number: u64,
}

impl Model for Count {
    ghost use Rattle.std.specs.Prelude.{ℕ};

    ghost Value = { ℕ };

    ghost view = { λ c. c.number };
}

impl Count {
    pub fn new() -> Count
        ensures { result ≡ 0 }
    {
        Count { number: 0 }
    }

    pub fn get(&self) -> u64
        ensures { result ≡ self.now }
    {
        self.number
    }

    /// Counts one more. At its end the count stands still.
    pub fn add(&mut self)
        ensures { self.new ≡ next_count self.old }
    {
        self.number = self.number.saturating_add(1);
    }
}
