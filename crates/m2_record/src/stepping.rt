//! One step of a record.

ghost use Rattle.std.specs.Prelude.{◌≡◌, ◌-◌, ◌≤◌, true, false};
ghost use Rattle.m2_handshake.specs.m2_control.declared.fields.TheConstants.{GREATEST_NUMBER};
ghost use Rattle.m2_shared.specs.Gates.{ArePassesOf, Return, places};
ghost use Rattle.m2_record.specs.Calls.{HasRoomFor, Owns};
ghost use Rattle.m2_record.specs.Due.{has_parcel, has_plan, next_step};
ghost use Rattle.m2_record.specs.declared.stepped.Stepped.TheVariants as stepped;
ghost use Rattle.m2_record.specs.Stepping.{HandsAs, IfMemory, IsHandedOwned, IsSameWork, KeepsReached, NothingDone, PlansAs, StepsAs, TakesDue, answer_composed, answer_framed, answer_planned, answer_put, returned_planned, worked};

use crate::composing::Composed;
use crate::due::Due;
use crate::framing::Framed;
use crate::reading::answer_read;
use crate::record::Record;
use crate::stepped::Stepped;
use crate::work::Work;
use m2_bytes::NoMemory;
use m2_fabric::End;
use m2_feed::{FeedWrite, WireFault};
use m2_handshake::HalfStep;
use m2_shared::{NumberPass, Numbers, TakePasses, Throttles};

impl<E: End> Record<E> {
    /// Takes the first step that is due at this moment, in the order of [`Due`]'s variants behind Nothing; at
    /// most one read or one write of the feed. The numbers that its pass draws are above all that this record
    /// has used.
    ///
    /// Dry comes exactly where nothing but a connect is due, or where the read of this call answered that
    /// nothing is there yet. After NoMemory all stays but room, and what a half of the handshake has looked
    /// at.
    pub fn step(&mut self, work: &mut Work<'_>, now: u64) -> Stepped
        requires numbers { work.old.number_pass.now.place ≡ work.old.numbers.now.place }
        requires top { self.old.core.top ≤ work.old.number_pass.now.least }
        requires takes { ArePassesOf work.old.throttles.now work.old.passes.now }
        requires owned { Owns (places work.old.throttles.now) self.old }
        ensures steps { StepsAs result (worked now result work.old work.new) self.old self.new }
        ensures top { self.new.core.top ≤ work.new.number_pass.now.least }
        ensures reached { KeepsReached work.old.number_pass.now work.new.number_pass.now }
        ensures owned { Owns (places work.old.throttles.now) self.new }
        ensures handed { IsHandedOwned (places work.old.throttles.now) result }
        ensures number_place { work.new.number_pass.now.place ≡ work.old.number_pass.now.place }
        ensures takes { ArePassesOf work.new.throttles.now work.new.passes.now }
        ensures same { IsSameWork work.old work.new }
        ensures number_pass { work.new.number_pass.ghost_name ≡ work.old.number_pass.ghost_name }
        ensures passes { work.new.passes.ghost_name ≡ work.old.passes.ghost_name }
    {
        match self.reserve(2) {
            Ok(()) => self.take_due(
                work.numbers,
                work.number_pass,
                work.throttles,
                work.passes,
                now,
            ),
            Err(NoMemory) => Stepped::NoMemory,
        }
    }

    /// The same, where two entries and parcels are reserved.
    fn take_due(
        &mut self,
        numbers: &Numbers,
        number_pass: &mut NumberPass,
        throttles: &Throttles,
        passes: &mut TakePasses,
        now: u64,
    ) -> Stepped
        requires room { HasRoomFor 2 self.old.room }
        requires numbers { number_pass.old.place ≡ numbers.now.place }
        requires top { self.old.core.top ≤ number_pass.old.least }
        requires takes { ArePassesOf throttles.now passes.old }
        requires owned { Owns (places throttles.now) self.old }
        ensures due { TakesDue (record { now = now; answer = result; bytes = record { throttles = throttles.now; before = passes.old; behind = passes.new }; numbers = record { place = numbers.now.place; before = number_pass.old; behind = number_pass.new } }) self.old self.new }
        ensures memory { IfMemory result (NothingDone self.old self.new) }
        ensures top { self.new.core.top ≤ number_pass.new.least }
        ensures owned { Owns (places throttles.now) self.new }
        ensures number_place { number_pass.new.place ≡ number_pass.old.place }
        ensures takes { ArePassesOf throttles.now passes.new }
    {
        match self.due(now) {
            Due::Plan => answer_planned(self.step_plan(throttles, passes, now)),
            Due::Hand => self.step_hand(),
            Due::Write => answer_put(self.write_or_close(throttles, passes, now)),
            Due::Frame => answer_framed(self.frame(throttles, passes, now)),
            Due::Read => answer_read(self.read(numbers, number_pass, throttles, passes, now)),
            Due::Compose => {
                self.top_fits();
                answer_composed(self.compose(numbers, number_pass, now))
            }
            Due::Connect { at: _ } => self.rest(),
            Due::Nothing => self.rest(),
        }
    }

    /// Takes the plan's next step; where none is left, gives the session up, since a number that is needed
    /// is above the greatest. Two entries and parcels are reserved. Err is want of memory, and leaves all as
    /// it was.
    fn step_plan(
        &mut self,
        throttles: &Throttles,
        passes: &mut TakePasses,
        now: u64,
    ) -> Result<(), NoMemory>
        requires due { has_plan self.old ≡ true }
        requires room { HasRoomFor 2 self.old.room }
        requires passes { ArePassesOf throttles.now passes.old }
        requires owned { Owns (places throttles.now) self.old }
        ensures plans { PlansAs (next_step self.old) result now self.old self.new }
        ensures owned { Owns (places throttles.now) self.new }
        ensures passes { ArePassesOf throttles.now passes.new }
        ensures word { Return (returned_planned (next_step self.old) self.old) throttles.now passes.old passes.new }
    {
        let is_left = self.plan.get(self.steps as usize).is_some();
        if is_left {
            return self.take_planned(throttles, passes, now);
        }
        self.down(throttles, passes);
        Ok(())
    }

    /// No global number that was used is above the greatest.
    fn top_fits(&self)
        ensures { self.now.core.top ≤ GREATEST_NUMBER }
    {
        let _place = self.place;
    }

    /// Hands out the parcel that was ready first.
    fn step_hand(&mut self) -> Stepped
        requires { has_parcel self.old.parcels ≡ true }
        ensures { HandsAs result self.old self.new }
    {
        match self.hand() {
            Some(parcel) => Stepped::Hand(parcel),
            None => unreachable!(),
        }
    }

    /// Nothing but a connect is due.
    fn rest(&mut self) -> Stepped
        ensures rests { self.new ≡ record self.old { held = false } }
        ensures dry { result ≡ stepped.Dry }
    {
        self.held = false;
        Stepped::Dry
    }
}

/// What a step of the plan answers.
fn answer_planned(taken: Result<(), NoMemory>) -> Stepped
    ensures { result ≡ answer_planned taken }
{
    match taken {
        Ok(()) => Stepped::Moved,
        Err(NoMemory) => Stepped::NoMemory,
    }
}

/// What a step answers by what it wrote.
fn answer_put(put: FeedWrite) -> Stepped
    ensures { result ≡ answer_put put }
{
    match put {
        FeedWrite::Put {
            count: _,
            acknowledged: _,
        } => Stepped::Moved,
        FeedWrite::NotYet => Stepped::Moved,
        FeedWrite::Failed => Stepped::Faulted(WireFault::Failed),
        FeedWrite::NoMemory => Stepped::NoMemory,
    }
}

/// What a step answers by what it did with what was read.
fn answer_framed(framed: Framed) -> Stepped
    ensures { result ≡ answer_framed framed }
{
    match framed {
        Framed::Half(HalfStep::Fault(e)) => Stepped::Faulted(WireFault::Half(e)),
        Framed::Half(HalfStep::NoMemory) => Stepped::NoMemory,
        Framed::Faulted(cause) => Stepped::Faulted(cause),
        Framed::Full { stage, held } => Stepped::Full { stage, held },
        Framed::Again { stage, seen, now } => Stepped::Again {
            stage: Some(stage),
            seen,
            now,
        },
        Framed::NoMemory => Stepped::NoMemory,
        _ => Stepped::Moved,
    }
}

/// What a step answers by what it composed.
fn answer_composed(composed: Composed) -> Stepped
    ensures { result ≡ answer_composed composed }
{
    match composed {
        Composed::Spent => Stepped::Spent,
        Composed::Again { seen, now } => Stepped::Again {
            stage: None,
            seen,
            now,
        },
        Composed::NoMemory => Stepped::NoMemory,
        _ => Stepped::Moved,
    }
}
