//! A clock that stands still.

ghost use Rattle.std.specs.Prelude.{◌≡◌};

use crate::clock::Clock;
use std::marker::Model;

/// A clock that gives one moment alone. Contracts see the moment.
#[derive(Debug, Drop)]
pub struct FixedClock {
    moment: u64,
}

impl Model for FixedClock {
    ghost use Rattle.std.specs.Prelude.{ℕ};

    ghost Value = { ℕ };

    ghost view = { λ c. c.moment };
}

impl FixedClock {
    /// A clock that stands at this moment, in milliseconds.
    pub fn new(now: u64) -> FixedClock
        ensures moment { result ≡ now }
    {
        FixedClock { moment: now }
    }
}

impl Clock for FixedClock {
    ghost may_give = { λ clock moment. moment ≡ clock };

    fn now(&self) -> u64
        ensures exact { result ≡ self.now }
    {
        self.moment
    }
}
