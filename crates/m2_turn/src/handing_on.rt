//! How the mail of a center is emptied where another thread dispatches.

ghost use Rattle.std.specs.Prelude.{◌≡◌, ◌-◌, ◌++◌, not, true, false, IfErr, IfOk, OnErr, OnOk};
ghost use Rattle.m2_dispatch.specs.Letters.{AreOwned, granted};
ghost use Rattle.m2_dispatch.specs.Parcel.{IsOwned, after_put, heard_at_put, thrown_away};
ghost use Rattle.m2_shared.specs.Gates.{ArePassesOf, AreShared, Return, places};
ghost use Rattle.m2_turn.specs.HandingOn.{HandsAllOn, HandsLetters, HandsNoLetter, HandsOn, resets_on};
ghost use Rattle.m2_turn.specs.Mailing.{Mails, PutsSome, is_none, mailing};
ghost use Rattle.m2_turn.specs.Outbox.{OwnsAll};

use crate::mailing::{Mailed, moved_or_dry};
use crate::outbox::Outbox;
use m2_bytes::NoMemory;
use m2_dispatch::{Dispatch, DispatchTurn, Dispatcher, Parcel};
use m2_shared::{TakePasses, Throttles};
use std::collections::VecDeque;

/// Empties the mail into the node's queue, as [`empty_mail`](crate::empty_mail) does, by throttles that threads share, and
/// hands on what the dispatcher behind it is called with: each letter, grants and all, and each reset go last among these
/// parcels, in the order of the calls. What was granted for the letters is out until whoever takes them gives it back.
pub fn hand_mail_on<D: Dispatcher>(
    out: &mut Outbox<D>,
    queued: &mut Dispatch<D>,
    throttles: &Throttles,
    passes: &mut TakePasses,
    into: &mut VecDeque<Parcel>,
) -> Mailed
    requires passes { ArePassesOf throttles.now passes.old }
    requires shared { AreShared throttles.now }
    requires out { OwnsAll (places throttles.now) out.old }
    requires letters { AreOwned (places throttles.now) queued.old.waiting }
    ensures mails { Mails D.heard (places throttles.now) result (mailing out.old queued.old passes.old) (mailing out.new queued.new passes.new) }
    ensures on { HandsOn D.heard (places throttles.now) queued.old.inner queued.new.inner into.old.items into.new.items }
    ensures dispatched { HandsLetters (mailing out.old queued.old passes.old) (mailing out.new queued.new passes.new) into.old.items into.new.items }
    ensures out { OwnsAll (places throttles.now) out.new }
    ensures letters { AreOwned (places throttles.now) queued.new.waiting }
    ensures passes { ArePassesOf throttles.now passes.new }
{
    let had_mail = out.has_mail();
    match put_all_on(out, queued, throttles, passes, into) {
        Ok(()) => {}
        Err(NoMemory) => return Mailed::NoMemory,
    }
    match hand_all_on(queued, into) {
        Ok(had_letters) => moved_or_dry(had_mail, had_letters),
        Err(NoMemory) => Mailed::NoMemory,
    }
}

/// Puts each parcel of the mail into the queue, in order, and hands resets on. Err is want of memory for the first that is left.
fn put_all_on<D: Dispatcher>(
    out: &mut Outbox<D>,
    queued: &mut Dispatch<D>,
    throttles: &Throttles,
    passes: &mut TakePasses,
    into: &mut VecDeque<Parcel>,
) -> Result<(), NoMemory>
    requires passes { ArePassesOf throttles.now passes.old }
    requires out { OwnsAll (places throttles.now) out.old }
    requires letters { AreOwned (places throttles.now) queued.old.waiting }
    ensures puts { PutsSome D.heard (places throttles.now) (mailing out.old queued.old passes.old) (mailing out.new queued.new passes.new) }
    ensures on { HandsNoLetter D.heard (places throttles.now) queued.old.inner queued.new.inner into.old.items into.new.items }
    ensures ok { OnOk result (is_none out.new.mail ≡ true) }
    ensures err { OnErr result (is_none out.new.mail ≡ false) }
    ensures out { OwnsAll (places throttles.now) out.new }
    ensures letters { AreOwned (places throttles.now) queued.new.waiting }
    ensures passes { ArePassesOf throttles.now passes.new }
{
    'putting: while let Some(parcel) = out.take() {
        match put_on(queued, parcel, throttles, passes, into) {
            Ok(()) => {}
            Err(parcel) => {
                out.put_back(parcel);
                return Err(NoMemory);
            }
        }
    }
    Ok(())
}

/// Puts a parcel into the queue, and hands it on where it is a reset.
fn put_on<D: Dispatcher>(
    queued: &mut Dispatch<D>,
    parcel: Parcel,
    throttles: &Throttles,
    passes: &mut TakePasses,
    into: &mut VecDeque<Parcel>,
) -> Result<(), Parcel>
    requires passes { ArePassesOf throttles.now passes.old }
    requires letters { AreOwned (places throttles.now) queued.old.waiting }
    requires parcel { IsOwned (places throttles.now) parcel }
    ensures waiting { OnOk result (queued.new.waiting ≡ after_put parcel queued.old.waiting) }
    ensures heard { OnOk result (D.heard queued.new.inner ≡ D.heard queued.old.inner ++ heard_at_put parcel) }
    ensures word { OnOk result (Return (granted (thrown_away parcel queued.old.waiting)) throttles.now passes.old passes.new) }
    ensures on { OnOk result (into.new.items ≡ into.old.items ++ resets_on parcel) }
    ensures back { IfErr result (λ back. back ≡ parcel) }
    ensures err_waiting { OnErr result (queued.new.waiting ≡ queued.old.waiting) }
    ensures err_heard { OnErr result (D.heard queued.new.inner ≡ D.heard queued.old.inner) }
    ensures err_passes { OnErr result (passes.new ≡ passes.old) }
    ensures err_into { OnErr result (into.new.items ≡ into.old.items) }
    ensures passes { ArePassesOf throttles.now passes.new }
    ensures letters { AreOwned (places throttles.now) queued.new.waiting }
{
    if into.reserve(1).is_err() {
        return Err(parcel);
    }
    match parcel {
        Parcel::Letter(letter) => queued.put(Parcel::Letter(letter), throttles, passes),
        Parcel::Discard { peer } => queued.put(Parcel::Discard { peer }, throttles, passes),
        Parcel::RemoteReset { peer } => {
            queued.put(Parcel::RemoteReset { peer }, throttles, passes)?;
            into.push_back_reserved(Parcel::RemoteReset { peer });
            Ok(())
        }
    }
}

/// Hands letters on until none waits, and says whether one did. Err is want of memory for the first that waits.
fn hand_all_on<D: Dispatcher>(
    queued: &mut Dispatch<D>,
    into: &mut VecDeque<Parcel>,
) -> Result<bool, NoMemory>
    ensures on { HandsAllOn D.heard queued.old queued.new into.old.items into.new.items }
    ensures ok { OnOk result (is_none queued.new.waiting ≡ true) }
    ensures any { IfOk result (λ any. any ≡ not (is_none queued.old.waiting)) }
    ensures err { OnErr result (is_none queued.new.waiting ≡ false) }
{
    let mut any = false;
    'turning: loop {
        match queued.hand_on(into) {
            DispatchTurn::One => any = true,
            DispatchTurn::Nothing => return Ok(any),
            DispatchTurn::NoMemory => return Err(NoMemory),
        }
    }
}
