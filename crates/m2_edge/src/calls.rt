//! The calls of a source or sink in memory, and which of them fail.

ghost use Rattle.std.specs.Prelude.{◌≡◌};
ghost use Rattle.m2_edge.specs.Calls.{counted, faulted, Counts};

use crate::count::Count;
use crate::failed::Failed;
use m2_bytes::Items;
use std::marker::Model;

/// Numbers of calls, counted from 1.
pub type CallList = Items<u64>;

/// Counts calls and faults, and makes the listed calls fail. Contracts see the list and both counts.
#[derive(Debug, Drop)]
pub struct Calls {
    fails: CallList,
    made: Count,
    faults: Count,
}

impl Model for Calls {
    ghost use Rattle.m2_edge.specs.Calls.{CallCounts};

    ghost Value = { CallCounts };

    ghost view = { λ c. record { fails = c.fails.items; made = c.made; faults = c.faults } };
}

impl Calls {
    /// No call so far. Those whose number stands in the list will fail.
    pub fn new(fails: CallList) -> Calls
        ensures { result ≡ record { fails = fails.items; made = 0; faults = 0 } }
    {
        Calls {
            fails,
            made: Count::new(),
            faults: Count::new(),
        }
    }

    /// Counts a call. It fails, and is counted as a fault, exactly where its number is listed.
    pub fn call(&mut self) -> Result<(), Failed>
        ensures { Counts result self.old self.new }
    {
        self.made.add();
        if self.fails.as_slice().contains(&self.made.get()) {
            return Err(self.fault());
        }
        Ok(())
    }

    /// Counts a fault of a call that was counted already.
    pub fn fault(&mut self) -> Failed
        ensures { self.new ≡ faulted self.old }
    {
        self.faults.add();
        Failed
    }
}
