//! A step of a side's record, and what becomes of the parcel that it hands out.

ghost use Rattle.std.specs.Prelude.{◌≡◌, ◌-◌, ◌<◌, ◌≤◌, ◌++◌};
ghost use Rattle.m2_shared.specs.Place.{IsAlone};
ghost use Rattle.m2_shared.specs.Gates.{ArePassesOf, Gate, dispatch, held, places, words};
ghost use Rattle.m2_dispatch.specs.Letters.{IsOwnedLetter};
ghost use Rattle.m2_dispatch.specs.Parcel.{IsOwned};
ghost use Rattle.m2_record.specs.Calls.{Owns, granted_in};
ghost use Rattle.m2_record.specs.Stepping.{IsHandedOwned, StepsAs};
ghost use Rattle.m2_record_trace.specs.Steps.{fast_at, fast_by, fast_of, given_back, call_of, queued_at, queued_by, queued_of, side_step};

use crate::step::SideStep;
use m2_dispatch::{Letter, Logged, LoggedList, Parcel};
use m2_fabric::SimEnd;
use m2_policy::Path;
use m2_record::{Record, Stepped, Work};
use m2_shared::{NumberPass, Numbers, TakePasses, Throttles};

/// Takes the first step of a record that is due. A parcel that it hands out was granted by these throttles.
pub(crate) fn step_record(
    kept: &mut Record<SimEnd>,
    numbers: &Numbers,
    number_pass: &mut NumberPass,
    throttles: &Throttles,
    passes: &mut TakePasses,
    now: u64,
) -> Stepped
    requires numbers { number_pass.old.place ≡ numbers.now.place }
    requires top { kept.old.core.top ≤ number_pass.old.least }
    requires takes { ArePassesOf throttles.now passes.old }
    requires owned { Owns (places throttles.now) kept.old }
    ensures steps { StepsAs result (record { now = now; answer = result; bytes = record { throttles = throttles.now; before = passes.old; behind = passes.new }; numbers = record { place = numbers.now.place; before = number_pass.old; behind = number_pass.new } }) kept.old kept.new }
    ensures top { kept.new.core.top ≤ number_pass.new.least }
    ensures owned { Owns (places throttles.now) kept.new }
    ensures number_place { number_pass.new.place ≡ number_pass.old.place }
    ensures takes { ArePassesOf throttles.now passes.new }
    ensures handed { IsHandedOwned (places throttles.now) result }
{
    let mut work = Work {
        numbers,
        number_pass,
        throttles,
        passes,
    };
    kept.step(&mut work, now)
}

/// Dispatches what a step hands out, for which there is room in the logs, and gives back what was granted for it. What the
/// step answered.
pub(crate) fn dispatch(
    stepped: Stepped,
    throttles: &Throttles,
    passes: &mut TakePasses,
    log: &mut LoggedList,
    fast: &mut LoggedList,
) -> SideStep
    requires passes { ArePassesOf throttles.now passes.old }
    requires alone { (gate : Gate) → IsAlone (places throttles.now gate) }
    requires owned { IsHandedOwned (places throttles.now) stepped }
    requires log { 0 < log.old.room }
    requires fast { 0 < fast.old.room }
    ensures answer { result ≡ side_step stepped }
    ensures log { log.new.items ≡ log.old.items ++ queued_at stepped }
    ensures fast { fast.new.items ≡ fast.old.items ++ fast_at stepped }
    ensures passes { ArePassesOf throttles.now passes.new }
    ensures word { words passes.new dispatch ≡ words passes.old dispatch - given_back stepped dispatch }
{
    match stepped {
        Stepped::Moved => SideStep::Moved,
        Stepped::Hand(parcel) => {
            dispatch_parcel(parcel, throttles, passes, log, fast);
            SideStep::Handed
        }
        Stepped::Dry => SideStep::Dry,
        Stepped::Full { stage: _, held } => SideStep::Full { held },
        Stepped::Again {
            stage: _,
            seen: _,
            now: _,
        } => SideStep::Again,
        Stepped::Spent => SideStep::Spent,
        Stepped::Faulted(cause) => SideStep::Faulted(cause),
        Stepped::NoMemory => SideStep::NoMemory,
    }
}

/// The same of a parcel.
fn dispatch_parcel(
    parcel: Parcel,
    throttles: &Throttles,
    passes: &mut TakePasses,
    log: &mut LoggedList,
    fast: &mut LoggedList,
)
    requires passes { ArePassesOf throttles.now passes.old }
    requires alone { (gate : Gate) → IsAlone (places throttles.now gate) }
    requires owned { IsOwned (places throttles.now) parcel }
    requires log { 0 < log.old.room }
    requires fast { 0 < fast.old.room }
    ensures log { log.new.items ≡ log.old.items ++ queued_of parcel }
    ensures fast { fast.new.items ≡ fast.old.items ++ fast_of parcel }
    ensures passes { ArePassesOf throttles.now passes.new }
    ensures word { words passes.new dispatch ≡ words passes.old dispatch - granted_in parcel dispatch }
{
    match parcel {
        Parcel::Letter(letter) => dispatch_letter(letter, throttles, passes, log, fast),
        Parcel::Discard { peer: _ } => {}
        Parcel::RemoteReset { peer } => log.push_reserved(Logged::Reset { peer }),
    }
}

/// The same of a letter.
fn dispatch_letter(
    letter: Letter,
    throttles: &Throttles,
    passes: &mut TakePasses,
    log: &mut LoggedList,
    fast: &mut LoggedList,
)
    requires passes { ArePassesOf throttles.now passes.old }
    requires alone { (gate : Gate) → IsAlone (places throttles.now gate) }
    requires owned { IsOwnedLetter (places throttles.now) letter }
    requires log { 0 < log.old.room }
    requires fast { 0 < fast.old.room }
    ensures log { log.new.items ≡ log.old.items ++ queued_by letter.key.path (call_of letter) }
    ensures fast { fast.new.items ≡ fast.old.items ++ fast_by letter.key.path (call_of letter) }
    ensures passes { ArePassesOf throttles.now passes.new }
    ensures word { words passes.new dispatch ≡ words passes.old dispatch - held letter.grants dispatch }
{
    let Letter {
        peer,
        key,
        number,
        life,
        message,
        grants,
    } = letter;
    grants.back(throttles, passes);
    let call = Logged::Message {
        peer,
        key,
        number,
        life,
        message,
    };
    match key.path {
        Path::Fast => fast.push_reserved(call),
        Path::Queued => log.push_reserved(call),
    }
}
