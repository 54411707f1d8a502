//! A clock's answers, taken as rising.

ghost use Rattle.std.specs.Prelude.{◌≤◌};
ghost use Rattle.m2_edge.specs.Clock.{IsNextMoment};

use crate::clock::Clock;

/// The clock's moment, where it isn't before `earlier`; else `earlier`, since an answer below an earlier
/// one counts as that one. Both are in milliseconds.
///
/// Where `earlier` is a moment that the clock may give, so is the answer.
pub fn next_moment<C: Clock>(clock: &C, earlier: u64) -> u64
    ensures moment { IsNextMoment (C.may_give clock.now) earlier result }
    ensures never_falls { earlier ≤ result }
    ensures given { C.may_give clock.now earlier → C.may_give clock.now result }
{
    earlier.max(clock.now())
}
