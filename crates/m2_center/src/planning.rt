//! A step of a plan that is taken at once.

ghost use Rattle.std.specs.Prelude.{◌≡◌, ◌≤◌, ◌-◌, None, Some, OnErr, OnOk};
ghost use Rattle.m2_record.specs.Calls.{HasRoomFor, Owns, TakesNext, planned_too, returned_by};
ghost use Rattle.m2_record.specs.Due.{next_step};
ghost use Rattle.m2_record.specs.IsRecord.{CanBePlanned, IsRecord};
ghost use Rattle.m2_record.specs.Stepping.{IsSameWork};
ghost use Rattle.m2_turn.specs.Answering.{StaysBeside};
ghost use Rattle.m2_turn.specs.Planning.{PlansNow};
ghost use Rattle.m2_shared.specs.Gates.{ArePassesOf, Return, places};

use m2_bytes::NoMemory;
use m2_fabric::End;
use m2_journal::PlanStep;
use m2_record::{Record, Work};

/// Adds a step to the plan of a record, each step of which was taken, and takes it at once. Err is want of
/// memory: the step is dropped, or is the plan's last and not taken yet, and all else but room is as before.
pub fn plan_at<E: End>(
    side: &mut Record<E>,
    step: PlanStep,
    work: &mut Work<'_>,
    now: u64,
) -> Result<(), NoMemory>
    requires taken { next_step side.old ≡ None }
    requires step { CanBePlanned step }
    requires takes { ArePassesOf work.old.throttles.now work.old.passes.now }
    requires owned { Owns (places work.old.throttles.now) side.old }
    ensures plans { PlansNow result step now side.old side.new }
    ensures stays { StaysBeside side.old side.new }
    ensures top { side.new.core.top ≡ side.old.core.top }
    ensures owned { Owns (places work.old.throttles.now) side.new }
    ensures word { OnOk result (Return (returned_by (Some step) side.old) work.old.throttles.now work.old.passes.now work.new.passes.now) }
    ensures numbers { work.new.number_pass.now ≡ work.old.number_pass.now }
    ensures takes { ArePassesOf work.new.throttles.now work.new.passes.now }
    ensures same { IsSameWork work.old work.new }
    ensures number_pass { work.new.number_pass.ghost_name ≡ work.old.number_pass.ghost_name }
    ensures passes { work.new.passes.ghost_name ≡ work.old.passes.ghost_name }
{
    side.is_record();
    side.reserve(2)?;
    add_step(side, step)?;
    take_next(side, work, now)
}

/// Adds a step at the end of a record's plan. For want of memory it is dropped.
fn add_step<E: End>(side: &mut Record<E>, step: PlanStep) -> Result<(), NoMemory>
    requires { CanBePlanned step }
    ensures ok { OnOk result (side.new ≡ planned_too step side.old) }
    ensures err { OnErr result (side.new ≡ side.old) }
{
    match side.plan_add(step) {
        Ok(()) => Ok(()),
        Err(_) => Err(NoMemory),
    }
}

/// Takes the next step of a record's plan, behind room that was made for it.
fn take_next<E: End>(side: &mut Record<E>, work: &mut Work<'_>, now: u64) -> Result<(), NoMemory>
    requires room { HasRoomFor 2 side.old.room }
    requires takes { ArePassesOf work.old.throttles.now work.old.passes.now }
    requires owned { Owns (places work.old.throttles.now) side.old }
    ensures taken { TakesNext (next_step side.old) result now side.old side.new }
    ensures is_record { IsRecord side.new }
    ensures owned { Owns (places work.old.throttles.now) side.new }
    ensures word { Return (returned_by (next_step side.old) side.old) work.old.throttles.now work.old.passes.now work.new.passes.now }
    ensures numbers { work.new.number_pass.now ≡ work.old.number_pass.now }
    ensures takes { ArePassesOf work.new.throttles.now work.new.passes.now }
    ensures same { IsSameWork work.old work.new }
    ensures number_pass { work.new.number_pass.ghost_name ≡ work.old.number_pass.ghost_name }
    ensures passes { work.new.passes.ghost_name ≡ work.old.passes.ghost_name }
{
    let taken = side.take_planned(work.throttles, work.passes, now);
    side.is_record();
    taken
}
