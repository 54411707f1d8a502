//! The signs of a run as one of its threads asks them.

ghost use Rattle.std.specs.Prelude.{◌≡◌, IfSome, is_some};
ghost use Rattle.m2_node.specs.Watching.{new_watch, told};

use crate::worker::Signs;
use m2_edge::Clock;
use std::marker::Model;

/// The signs as one thread asks them. Contracts see how often it was told to go on, and how often to stop, each modulo 2^64; only
/// [`ask`](Watch::ask) changes that. When the signs say stop no clause says, so a thread may be told so at once, or never.
#[derive(Drop)]
pub(crate) struct Watch {
    goes: u64,
    stops: u64,
}

impl Model for Watch {
    ghost use Rattle.m2_node.specs.Watching.{WatchNow};

    ghost Value = { WatchNow };

    ghost view = { λ w. record { goes = w.goes; stops = w.stops } };
}

impl Watch {
    /// One that was told nothing yet.
    pub(crate) fn new() -> Watch
        ensures { result ≡ new_watch }
    {
        Watch { goes: 0, stops: 0 }
    }

    /// The clock's moment, unless the signs say stop at it.
    pub(crate) fn ask<C: Clock>(&mut self, signs: &Signs, clock: &C) -> Option<u64>
        ensures told { self.new ≡ told (is_some result) self.old }
        ensures moment { IfSome result (λ now. C.may_give clock.now now) }
    {
        let now = clock.now();
        if signs.say_stop(now) {
            self.stops = self.stops.wrapping_add(1);
            return None;
        }
        self.goes = self.goes.wrapping_add(1);
        Some(now)
    }
}
