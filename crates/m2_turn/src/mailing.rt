//! How the mail of a center is emptied.

ghost use Rattle.std.specs.Prelude.{◌≡◌, ◌||◌, not, true, false, if◌then◌else◌, IfOk, OnOk, OnErr};
ghost use Rattle.m2_dispatch.specs.Letters.{AreOwned};
ghost use Rattle.m2_turn.specs.declared.mailing.Mailed.TheVariants as mailed;
ghost use Rattle.m2_turn.specs.Mailing.{DispatchesSome, Mails, PutsSome, is_none, mailing, queueing};
ghost use Rattle.m2_turn.specs.Outbox.{OwnsAll};
ghost use Rattle.m2_shared.specs.Gates.{ArePassesOf, places};

use crate::outbox::Outbox;
use m2_bytes::NoMemory;
use m2_dispatch::{Dispatch, DispatchTurn, Dispatcher};
use m2_shared::{TakePasses, Throttles};

/// What came of emptying the mail.
#[derive(Clone, Copy, Debug, PartialEq, Eq)]
pub enum Mailed {
    /// Parcels or letters were there, and all of them are gone.
    Moved,
    /// The mail was empty, and no letter waited.
    Dry,
    /// Memory ran out. What was put and dispatched stays so, and the rest is where it was.
    NoMemory,
}

/// Empties the mail into the node's queue: each parcel is put, in order, and then the queue dispatches until
/// nothing waits.
pub fn empty_mail<D: Dispatcher>(
    out: &mut Outbox<D>,
    queued: &mut Dispatch<D>,
    throttles: &Throttles,
    passes: &mut TakePasses,
) -> Mailed
    requires passes { ArePassesOf throttles.now passes.old }
    requires out { OwnsAll (places throttles.now) out.old }
    requires letters { AreOwned (places throttles.now) queued.old.waiting }
    ensures mails { Mails D.heard (places throttles.now) result (mailing out.old queued.old passes.old) (mailing out.new queued.new passes.new) }
    ensures out { OwnsAll (places throttles.now) out.new }
    ensures letters { AreOwned (places throttles.now) queued.new.waiting }
    ensures passes { ArePassesOf throttles.now passes.new }
{
    let had_mail = out.has_mail();
    match put_all(out, queued, throttles, passes) {
        Ok(()) => {}
        Err(NoMemory) => return Mailed::NoMemory,
    }
    match dispatch_all(queued, throttles, passes) {
        Ok(had_letters) => moved_or_dry(had_mail, had_letters),
        Err(NoMemory) => Mailed::NoMemory,
    }
}

/// Puts each parcel of the mail into the queue, in order. Err is want of memory for the first that is left.
fn put_all<D: Dispatcher>(
    out: &mut Outbox<D>,
    queued: &mut Dispatch<D>,
    throttles: &Throttles,
    passes: &mut TakePasses,
) -> Result<(), NoMemory>
    requires passes { ArePassesOf throttles.now passes.old }
    requires out { OwnsAll (places throttles.now) out.old }
    requires letters { AreOwned (places throttles.now) queued.old.waiting }
    ensures puts { PutsSome D.heard (places throttles.now) (mailing out.old queued.old passes.old) (mailing out.new queued.new passes.new) }
    ensures ok { OnOk result (is_none out.new.mail ≡ true) }
    ensures err { OnErr result (is_none out.new.mail ≡ false) }
    ensures out { OwnsAll (places throttles.now) out.new }
    ensures letters { AreOwned (places throttles.now) queued.new.waiting }
    ensures passes { ArePassesOf throttles.now passes.new }
{
    'putting: while let Some(parcel) = out.take() {
        match queued.put(parcel, throttles, passes) {
            Ok(()) => {}
            Err(parcel) => {
                out.put_back(parcel);
                return Err(NoMemory);
            }
        }
    }
    Ok(())
}

/// Dispatches until no letter waits, and says whether one did. Err is want of memory for the first that waits.
fn dispatch_all<D: Dispatcher>(
    queued: &mut Dispatch<D>,
    throttles: &Throttles,
    passes: &mut TakePasses,
) -> Result<bool, NoMemory>
    requires passes { ArePassesOf throttles.now passes.old }
    requires letters { AreOwned (places throttles.now) queued.old.waiting }
    ensures dispatches { DispatchesSome D.heard (places throttles.now) (queueing queued.old passes.old) (queueing queued.new passes.new) }
    ensures ok { OnOk result (is_none queued.new.waiting ≡ true) }
    ensures any { IfOk result (λ any. any ≡ not (is_none queued.old.waiting)) }
    ensures err { OnErr result (is_none queued.new.waiting ≡ false) }
    ensures letters { AreOwned (places throttles.now) queued.new.waiting }
    ensures passes { ArePassesOf throttles.now passes.new }
{
    let mut any = false;
    'turning: loop {
        match queued.turn(throttles, passes) {
            DispatchTurn::One => any = true,
            DispatchTurn::Nothing => return Ok(any),
            DispatchTurn::NoMemory => return Err(NoMemory),
        }
    }
}

/// What came of it, where all is gone that was there, if anything was.
pub(crate) fn moved_or_dry(had_mail: bool, had_letters: bool) -> Mailed
    ensures { result ≡ (if had_mail || had_letters then mailed.Moved else mailed.Dry) }
{
    if had_mail || had_letters {
        Mailed::Moved
    } else {
        Mailed::Dry
    }
}
