//! A record in its turn.

ghost use Rattle.std.specs.Prelude.{◌≡◌, ◌≤◌, true};
ghost use Rattle.m2_record.specs.Calls.{Owns};
ghost use Rattle.m2_record.specs.Stepping.{IsSameWork, KeepsReached};
ghost use Rattle.m2_turn.specs.Answering.{StaysBeside};
ghost use Rattle.m2_turn.specs.Handing.{SaysMore};
ghost use Rattle.m2_turn.specs.Outbox.{OwnsAll, is_free};
ghost use Rattle.m2_turn.specs.RecordTurn.{StepsOnce, TurnsAs, means_of, turning};
ghost use Rattle.m2_shared.specs.Gates.{ArePassesOf, places};

use crate::outbox::Outbox;
use m2_dispatch::Dispatcher;
use m2_fabric::End;
use m2_feed::WireFault;
use m2_record::{Record, Stepped, Work};
use m2_shared::Stage;

/// How many steps a record takes in a turn at most.
pub const MOST_STEPS: u32 = 4096;

/// What ended a record's turn.
#[derive(Clone, Copy, Debug, PartialEq, Eq)]
pub enum RecordTurn {
    /// Nothing but a connect is due, or nothing more has come.
    Dry,
    /// So much is out at this stage that a MESSAGE has to wait.
    Full {
        stage: Stage,
        held: u64,
    },
    /// Another thread changed the word of this stage at that moment, or where none is named the counter of
    /// global numbers.
    Again {
        stage: Option<Stage>,
        seen: u64,
        now: u64,
    },
    /// No global number is left for an ask.
    Spent,
    /// The feed was closed for this cause.
    Faulted(WireFault),
    /// It has taken all its steps of this turn, and may go on.
    Busy,
    /// A letter of a fast kind is held, or the mail is full: no step may be taken.
    Stuck,
    /// Memory ran out. It may go on.
    NoMemory,
}

/// A record takes steps, the first that is due each time, until one answers that it waits or that the feed
/// was closed for a fault, and at most [`MOST_STEPS`]. A parcel that a step hands out is put at once; while
/// none can be put no step is taken. `handed` says then whether one was put, or whether it said so before.
pub fn turn_record<E: End, D: Dispatcher>(
    side: &mut Record<E>,
    out: &mut Outbox<D>,
    work: &mut Work<'_>,
    handed: &mut bool,
    now: u64,
) -> RecordTurn
    requires numbers { work.old.number_pass.now.place ≡ work.old.numbers.now.place }
    requires top { side.old.core.top ≤ work.old.number_pass.now.least }
    requires takes { ArePassesOf work.old.throttles.now work.old.passes.now }
    requires owned { Owns (places work.old.throttles.now) side.old }
    requires out { OwnsAll (places work.old.throttles.now) out.old }
    ensures turns { TurnsAs D.heard (means_of now work.old) result (turning side.old out.old work.old) (turning side.new out.new work.new) }
    ensures stays { StaysBeside side.old side.new }
    ensures handed { SaysMore handed.old handed.new side.old.handed side.new.handed }
    ensures top { side.new.core.top ≤ work.new.number_pass.now.least }
    ensures reached { KeepsReached work.old.number_pass.now work.new.number_pass.now }
    ensures owned { Owns (places work.old.throttles.now) side.new }
    ensures out { OwnsAll (places work.old.throttles.now) out.new }
    ensures number_place { work.new.number_pass.now.place ≡ work.old.number_pass.now.place }
    ensures takes { ArePassesOf work.new.throttles.now work.new.passes.now }
    ensures same { IsSameWork work.old work.new }
    ensures number_pass { work.new.number_pass.ghost_name ≡ work.old.number_pass.ghost_name }
    ensures passes { work.new.passes.ghost_name ≡ work.old.passes.ghost_name }
{
    'steps: for _ in 0..MOST_STEPS {
        if !out.is_free() {
            return RecordTurn::Stuck;
        }
        if let Some(end) = step_once(side, out, work, handed, now) {
            return end;
        }
    }
    RecordTurn::Busy
}

/// Takes one step, and puts what it hands out. None: the record goes on.
fn step_once<E: End, D: Dispatcher>(
    side: &mut Record<E>,
    out: &mut Outbox<D>,
    work: &mut Work<'_>,
    handed: &mut bool,
    now: u64,
) -> Option<RecordTurn>
    requires free { is_free out.old ≡ true }
    requires numbers { work.old.number_pass.now.place ≡ work.old.numbers.now.place }
    requires top { side.old.core.top ≤ work.old.number_pass.now.least }
    requires takes { ArePassesOf work.old.throttles.now work.old.passes.now }
    requires owned { Owns (places work.old.throttles.now) side.old }
    requires out { OwnsAll (places work.old.throttles.now) out.old }
    ensures steps { StepsOnce D.heard (means_of now work.old) result (turning side.old out.old work.old) (turning side.new out.new work.new) }
    ensures stays { StaysBeside side.old side.new }
    ensures handed { SaysMore handed.old handed.new side.old.handed side.new.handed }
    ensures top { side.new.core.top ≤ work.new.number_pass.now.least }
    ensures reached { KeepsReached work.old.number_pass.now work.new.number_pass.now }
    ensures owned { Owns (places work.old.throttles.now) side.new }
    ensures out { OwnsAll (places work.old.throttles.now) out.new }
    ensures number_place { work.new.number_pass.now.place ≡ work.old.number_pass.now.place }
    ensures takes { ArePassesOf work.new.throttles.now work.new.passes.now }
    ensures same { IsSameWork work.old work.new }
    ensures number_pass { work.new.number_pass.ghost_name ≡ work.old.number_pass.ghost_name }
    ensures passes { work.new.passes.ghost_name ≡ work.old.passes.ghost_name }
{
    side.is_record();
    let stepped = side.step(work, now);
    side.is_record();
    match stepped {
        Stepped::Moved => None,
        Stepped::Hand(parcel) => {
            *handed = true;
            out.put(parcel, work.throttles, work.passes);
            None
        }
        Stepped::Dry => Some(RecordTurn::Dry),
        Stepped::Full { stage, held } => Some(RecordTurn::Full { stage, held }),
        Stepped::Again { stage, seen, now } => Some(RecordTurn::Again { stage, seen, now }),
        Stepped::Spent => Some(RecordTurn::Spent),
        Stepped::Faulted(cause) => Some(RecordTurn::Faulted(cause)),
        Stepped::NoMemory => Some(RecordTurn::NoMemory),
    }
}
