//! Words that are counted.

ghost use Rattle.std.specs.Prelude.{◌≡◌, ◌+◌, ◌-◌, ◌^◌, ◌<◌};
ghost use Rattle.m2_edge.specs.Words.{Counts};

use crate::Count;
use crate::words::Words;
use std::marker::Model;

/// Gives 1, then 2, and one more each time. At the end of 64 bits it stands still. Contracts see the word
/// that was given last, 0 before the first: how many were given.
#[derive(Debug, Drop)]
pub struct CountWords {
    given: Count,
}

impl Model for CountWords {
    ghost use Rattle.std.specs.Prelude.{ℕ};

    ghost Value = { ℕ };

    ghost view = { λ w. w.given };
}

impl CountWords {
    /// None given so far.
    pub fn new() -> CountWords
        ensures { result ≡ 0 }
    {
        CountWords {
            given: Count::new(),
        }
    }
}

impl Words for CountWords {
    ghost may_give = { Counts };

    fn next(&mut self) -> u64
        ensures exact { Counts self.old result self.new }
        ensures rises { self.old < 2 ^ 64 - 1 → result ≡ self.old + 1 }
    {
        self.given.add();
        self.given.get()
    }
}
