//! Which calls of one kind are to fail.

ghost use Rattle.std.specs.Prelude.{◌≡◌, ◌++◌, ◌∷◌, [], OnOk, OnErr};
ghost use Rattle.m2_mem_fabric.specs.Failing.{after_call, is_to_fail, none_fails};

use m2_bytes::NoMemory;
use m2_edge::Count;
use std::alloc::Global;
use std::marker::Model;

/// Which calls of one kind are to fail, by their places among all such calls, from 1; and how many there
/// were.
#[derive(Drop)]
pub(crate) struct FailingCalls {
    at: Vec<u32>,
    calls: Count,
}

impl Model for FailingCalls {
    ghost use Rattle.m2_mem_fabric.specs.Failing.{Failing};

    ghost Value = { Failing };

    ghost view = { λ f. record { at = f.at.items; calls = f.calls } };
}

impl FailingCalls {
    /// None is to fail, and there were none. Takes no memory.
    pub(crate) fn none(alloc: Global) -> FailingCalls
        ensures { result ≡ none_fails }
    {
        FailingCalls {
            at: Vec::new(alloc),
            calls: Count::new(),
        }
    }

    /// The call at a place is to fail too.
    pub(crate) fn add(&mut self, at: u32) -> Result<(), NoMemory>
        ensures ok { OnOk result (self.new ≡ record self.old { at = self.old.at ++ at ∷ [] }) }
        ensures err { OnErr result (self.new ≡ self.old) }
    {
        self.at.push(at)?;
        Ok(())
    }

    /// Counts a call. Whether it is to fail.
    pub(crate) fn count(&mut self) -> bool
        ensures fails { result ≡ is_to_fail self.old }
        ensures counted { self.new ≡ after_call self.old }
    {
        self.calls.add();
        let place = self.calls.get();
        self.at.iter().any(|at| *at as u64 == place)
    }
}
