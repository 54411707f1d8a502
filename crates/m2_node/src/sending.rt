//! An event thread and its mail.

ghost use Rattle.std.specs.Bool.{OnFalse, OnTrue};
ghost use Rattle.std.specs.Prelude.{◌≡◌, ◌≢◌, ◌⊎◌, [], true, IfSome, slice_get};
ghost use Rattle.m2_dispatch.specs.Parcel.{AllOwned};
ghost use Rattle.m2_dispatch.specs.m2_shared.Gates.{AreShared, places};
ghost use Rattle.m2_mailbox.specs.Passes.{IsPutPassOf, WasFull};
ghost use Rattle.m2_node.specs.Dispatching.{Mail as MailNow, throttles_of};
ghost use Rattle.m2_node.specs.Handing.{IsSending, RunsSender, SenderNow, SendsOnce};
ghost use Rattle.m2_node.specs.Watching.{UntilStop};
ghost use Rattle.m2_node.specs.Working.{Stops, TurnsOnce, WaitsOnce, WorkerNow};
ghost use Rattle.m2_node.specs.declared.end.RunEnd.{RunEnd};

use crate::mails::Mail;
use crate::worker::{Signs, Worker};
use m2_dispatch::Parcel;
use m2_edge::{Clock, Gate};
use m2_fabric::Port;
use m2_mailbox::{Full, PutPass};
use std::collections::VecDeque;
use std::marker::Model;
use std::sync::Wait;

/// A worker with the right to put into its mail, and what it has handed on that isn't in the mail yet. It can't be dropped, since
/// a worker can't.
pub(crate) struct Sender<'s, P: Port> {
    pub(crate) worker: Worker<'s, P>,
    pub(crate) put: PutPass<Parcel>,
    pub(crate) waiting: VecDeque<Parcel>,
}

impl<'s, P: Port> Model for Sender<'s, P> {
    ghost use Rattle.m2_dispatch.specs.Parcel.{AllOwned};
    ghost use Rattle.m2_dispatch.specs.m2_shared.Gates.{places};
    ghost use Rattle.m2_node.specs.Handing.{SenderNow};

    ghost Value = { SenderNow };

    ghost view = { λ s. record { worker = s.worker; put = s.put; waiting = s.waiting.items } };

    ghost invariant = { λ s. AllOwned (places s.worker.throttles) s.waiting.items };
}

impl<'s, P: Port> Sender<'s, P> {
    /// Takes turns until the signs say stop, and puts what they hand on into this one of the mails; one of a node that is off takes
    /// none.
    pub(crate) fn work_by<R: Wait, C: Clock, G: Gate>(
        &mut self,
        rt: &R,
        mails: &[Mail],
        number: usize,
        signs: &Signs,
        clock: &C,
        gate: &G,
    )
        requires { IfSome (slice_get mails.now number) (λ m. IsSending m self.old) }
        ensures runs { IfSome (slice_get mails.now number) (λ _. RunsSender (RunEnd P.End) (C.may_give clock.now) self.old self.new) }
        ensures sends { IfSome (slice_get mails.now number) (λ m. IsSending m self.new) }
    {
        if number < mails.len() {
            self.work(rt, &mails[number], signs, clock, gate);
        }
    }

    /// The same, where this is the mail.
    fn work<R: Wait, C: Clock, G: Gate>(
        &mut self,
        rt: &R,
        mail: &Mail,
        signs: &Signs,
        clock: &C,
        gate: &G,
    )
        requires { IsSending mail.now self.old }
        ensures runs { RunsSender (RunEnd P.End) (C.may_give clock.now) self.old self.new }
        ensures sends { IsSending mail.now self.new }
    {
        if self.worker.is_started() {
            self.take_turns(rt, mail, signs, clock, gate);
        }
    }

    /// The same of one that is on.
    fn take_turns<R: Wait, C: Clock, G: Gate>(
        &mut self,
        rt: &R,
        mail: &Mail,
        signs: &Signs,
        clock: &C,
        gate: &G,
    )
        requires started { self.old.worker.started ≡ true }
        requires sends { IsSending mail.now self.old }
        ensures runs { UntilStop (SendsOnce (RunEnd P.End) (C.may_give clock.now)) (λ (s : SenderNow) (t : SenderNow). Stops s.worker t.worker) self.old self.new }
        ensures sends { IsSending mail.now self.new }
    {
        'turns: for _ in rt.forever() {
            let seen = self.worker.given();
            self.post(rt, mail);
            if !self.go_on(rt, seen, signs, clock, gate) {
                return;
            }
        }
        unreachable!()
    }

    /// One turn, unless the signs say stop, or something waits for room in the mail, in which case nothing more is handed on, and the
    /// thread waits until there is some. Whether the signs didn't say so.
    fn go_on<R: Wait, C: Clock, G: Gate>(
        &mut self,
        rt: &R,
        seen: u64,
        signs: &Signs,
        clock: &C,
        gate: &G,
    ) -> bool
        requires started { self.old.worker.started ≡ true }
        requires shared { AreShared self.old.worker.throttles }
        ensures goes { OnTrue result (((self.old.waiting ≡ []) × TurnsOnce (RunEnd P.End) (C.may_give clock.now) self.old.worker self.new.worker) ⊎ ((self.old.waiting ≢ []) × WaitsOnce self.old.worker self.new.worker)) }
        ensures stops { OnFalse result (Stops self.old.worker self.new.worker) }
        ensures put { self.new.put ≡ self.old.put }
        ensures sends { (mail : MailNow) → IsSending mail self.old → IsSending mail self.new }
        ensures waits { (self.old.waiting ≡ []) ⊎ ((self.new.waiting ≡ self.old.waiting) × (self.new.worker.center.queued ≡ self.old.worker.center.queued)) }
    {
        if self.waiting.is_empty() {
            self.worker
                .go_on(rt, seen, signs, clock, gate, &mut self.waiting)
        } else {
            self.worker.wait(rt, seen, signs, clock)
        }
    }

    /// Puts what waits into the mail, in order, as far as there is room: what waits still does so since the mail was full.
    fn post<R: Wait>(&mut self, rt: &R, mail: &Mail)
        requires { IsSending mail.now self.old }
        ensures worker { self.new.worker ≡ self.old.worker }
        ensures sends { IsSending mail.now self.new }
        ensures full { (self.new.waiting ≡ []) ⊎ WasFull mail.now self.new.put }
    {
        if put_all(rt, mail, &mut self.put, &mut self.waiting) {
            self.worker.tell_posted();
        }
    }
}

/// Puts these parcels into a mail, in order, as far as there is room: whether it has put any.
fn put_all<R: Wait>(
    rt: &R,
    mail: &Mail,
    put: &mut PutPass<Parcel>,
    waiting: &mut VecDeque<Parcel>,
) -> bool
    requires ours { IsPutPassOf mail.now put.old }
    requires owned { AllOwned (places (throttles_of mail.now)) waiting.old.items }
    ensures owned { AllOwned (places (throttles_of mail.now)) waiting.new.items }
    ensures sends { (w : WorkerNow) → IsSending mail.now (record { worker = w; put = put.old; waiting = waiting.old.items })
        → IsSending mail.now (record { worker = w; put = put.new; waiting = waiting.new.items }) }
    ensures full { (waiting.new.items ≡ []) ⊎ WasFull mail.now put.new }
{
    let mut any = false;
    'parcels: while let Some(parcel) = waiting.pop_front() {
        match mail.put(rt, put, parcel) {
            Ok(()) => any = true,
            Err(Full { item }) => {
                waiting.push_front_reserved(item);
                return any;
            }
        }
    }
    any
}
