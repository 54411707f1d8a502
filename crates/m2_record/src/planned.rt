//! What a record does by its plan.

ghost use Rattle.std.specs.Prelude.{◌≡◌, ◌+◌, ◌-◌, ◌^◌, ◌<◌, ◌≤◌, true, false, if◌then◌else◌, OnOk, OnErr};
ghost use Rattle.m2_shared.specs.Gates.{ArePassesOf, Return, held, places};
ghost use Rattle.m2_record.specs.Calls.{GoesDown, HasRoomFor, IsDialNext, IsPostNext, MayGoDown, Owns, PostsNext, TakesNext, is_down_next, returned_by, with_dial};
ghost use Rattle.m2_record.specs.Due.{next_step};

use crate::leaving::{put_closed, put_told};
use crate::record::Record;
use m2_bytes::NoMemory;
use m2_fabric::End;
use m2_journal::{Entry, PlanStep};
use m2_shared::{TakePasses, Throttles};

impl<E: End> Record<E> {
    /// Takes the plan's next step, a post: a copy of its message is queued. Err is want of memory, and
    /// leaves all as it was.
    pub(crate) fn take_post(&mut self, now: u64) -> Result<(), NoMemory>
        requires next { IsPostNext (next_step self.old) }
        requires room { 0 < self.old.room.entries }
        ensures ok { OnOk result (PostsNext (next_step self.old) now self.old self.new) }
        ensures err { OnErr result (self.new ≡ self.old) }
    {
        let Some(PlanStep::Post(message)) = self.plan.get(self.steps as usize) else {
            unreachable!()
        };
        match self.core.post(message) {
            Ok(()) => {
                self.journal
                    .push_reserved(Entry::Post { place: self.steps });
                self.steps += 1;
                self.last = now;
                Ok(())
            }
            Err(error) => Err(error),
        }
    }

    /// Takes the plan's next step, a dial.
    pub(crate) fn take_dial(&mut self)
        requires next { IsDialNext (next_step self.old) }
        requires room { 0 < self.old.room.entries }
        ensures { self.new ≡ with_dial self.old }
    {
        self.core.dial();
        self.journal.push_reserved(Entry::Dial);
        self.steps += 1;
    }
    /// Gives the session up: by the plan's next step (`planned`), or because a number that is needed is
    /// above the greatest. What is owed then is ready for the dispatcher, and what was granted for
    /// the feed is given back.
    pub(crate) fn go_down(&mut self, planned: bool, throttles: &Throttles, passes: &mut TakePasses)
        requires may { MayGoDown planned self.old }
        requires room { HasRoomFor 2 self.old.room }
        requires passes { ArePassesOf throttles.now passes.old }
        requires owned { Owns (places throttles.now) self.old }
        ensures down { GoesDown planned self.old self.new }
        ensures owned { Owns (places throttles.now) self.new }
        ensures passes { ArePassesOf throttles.now passes.new }
        ensures word { Return (held self.old.core.live.granted) throttles.now passes.old passes.new }
    {
        self.journal.push_reserved(Entry::Down { planned });
        let aftermath = self.core.down(throttles, passes);
        self.held = false;
        self.steps = steps_taken(planned, self.steps);
        put_told(
            aftermath.discarded,
            aftermath.remote_reset,
            self.place,
            &mut self.parcels,
        );
        put_closed(aftermath.closed, &mut self.journal, &mut self.spent);
    }
    /// Takes the plan's next step, for which two entries and parcels are reserved. Err is want of memory for
    /// the copy of a message, and leaves all as it was.
    pub fn take_planned(
        &mut self,
        throttles: &Throttles,
        passes: &mut TakePasses,
        now: u64,
    ) -> Result<(), NoMemory>
        requires room { HasRoomFor 2 self.old.room }
        requires passes { ArePassesOf throttles.now passes.old }
        requires owned { Owns (places throttles.now) self.old }
        ensures taken { TakesNext (next_step self.old) result now self.old self.new }
        ensures owned { Owns (places throttles.now) self.new }
        ensures passes { ArePassesOf throttles.now passes.new }
        ensures word { Return (returned_by (next_step self.old) self.old) throttles.now passes.old passes.new }
    {
        match self.plan.get(self.steps as usize) {
            Some(PlanStep::Post(_)) => self.take_post(now),
            Some(PlanStep::Dial) => {
                self.take_dial();
                Ok(())
            }
            Some(PlanStep::Down) => {
                self.go_down(true, throttles, passes);
                Ok(())
            }
            None => Ok(()),
        }
    }

    /// Gives the session up: by the plan, whose next step is Down, or because a number that is needed is
    /// above the greatest. Two entries and parcels are reserved.
    pub fn down(&mut self, throttles: &Throttles, passes: &mut TakePasses)
        requires may { MayGoDown (is_down_next (next_step self.old)) self.old }
        requires room { HasRoomFor 2 self.old.room }
        requires passes { ArePassesOf throttles.now passes.old }
        requires owned { Owns (places throttles.now) self.old }
        ensures down { GoesDown (is_down_next (next_step self.old)) self.old self.new }
        ensures owned { Owns (places throttles.now) self.new }
        ensures passes { ArePassesOf throttles.now passes.new }
        ensures word { Return (held self.old.core.live.granted) throttles.now passes.old passes.new }
    {
        let planned = matches!(self.plan.get(self.steps as usize), Some(PlanStep::Down));
        self.go_down(planned, throttles, passes);
    }
}

/// How many steps were taken, where one more was taken or none.
fn steps_taken(one_more: bool, steps: u32) -> u32
    requires { one_more ≡ true → steps + 1 < 2 ^ 32 }
    ensures { result ≡ (if one_more then steps + 1 else steps) }
{
    if one_more { steps + 1 } else { steps }
}
