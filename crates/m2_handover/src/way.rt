//! The way to one of a node's event threads.

ghost use Rattle.std.specs.Prelude.{◌≡◌, ◌<◌, length, slice_get, Some, IfErr, OnErr, OnOk};
ghost use Rattle.m2_handover.specs.Handed.{IsOfNamed, OnItsWay};
ghost use Rattle.m2_handover.specs.Way.{IsAtHomeIn, Refuses, most_held, with_put};
ghost use Rattle.m2_mailbox.specs.Passes.{IsPutPassOf, owner_of, parts_of, puts_of};
ghost use Rattle.m2_mailbox.specs.Views.{all_parts};
ghost use Rattle.m2_mailbox.specs.declared.inbox.Inbox.{Inbox};
ghost use Rattle.m2_trail.specs.declared.home.HomeOf.{HomeOf};

use crate::handed::Handed;
use crate::names::Inboxes;
use m2_fabric::End;
use m2_mailbox::PutPass;
use m2_trail::HomeOf;
use std::marker::{Model, PhantomData};
use std::sync::Wait;

/// The way to one of a node's event threads: the number of its inbox, and the whole right to put there what is at home with it.
/// Contracts see the home, how many the inbox holds at most, and what was put.
#[derive(Drop)]
pub struct Way<E: End, B: Inboxes<E>> {
    home: HomeOf,
    number: u32,
    pass: PutPass<Handed<E>>,
    of: PhantomData<B>,
    ghost named: { number < length B.inboxes },
    ghost owned: { (inbox : Inbox OnItsWay HomeOf) → slice_get B.inboxes number ≡ Some inbox → owner_of inbox ≡ home },
    ghost ours: { (inbox : Inbox OnItsWay HomeOf) → slice_get B.inboxes number ≡ Some inbox → IsPutPassOf inbox pass },
    ghost whole: { parts_of pass ≡ all_parts },
}

impl<E: End, B: Inboxes<E>> Model for Way<E, B> {
    ghost use Rattle.std.specs.Prelude.{slice_get};
    ghost use Rattle.m2_handover.specs.Way.{WayNow, most_held};
    ghost use Rattle.m2_mailbox.specs.Passes.{puts_of};

    ghost Value = { WayNow };

    ghost view = { λ w. record { home = w.home; most = most_held (slice_get B.inboxes w.number); put = puts_of w.pass } };
}

impl<E: End, B: Inboxes<E>> Way<E, B> {
    /// The way to the thread with this number, which owns the inbox, by the whole right to put there.
    #[tactic(auto, using(crate::proofs::Named::of_named, crate::proofs::Named::named_within))]
    pub fn new(home: HomeOf, number: u32, pass: PutPass<Handed<E>>) -> Way<E, B>
        requires owned { IsOfNamed (λ inbox. owner_of inbox ≡ home) (slice_get B.inboxes number) }
        requires ours { IsOfNamed (λ inbox. IsPutPassOf inbox pass) (slice_get B.inboxes number) }
        requires whole { parts_of pass ≡ all_parts }
        ensures { result ≡ record { home = home; most = most_held (slice_get B.inboxes number); put = puts_of pass } }
    {
        Way {
            home,
            number,
            pass,
            of: PhantomData,
        }
    }

    /// Whose way it is, and the whole right to put there, with what was put.
    #[tactic(auto, using(crate::proofs::Named::is_of_named))]
    pub fn into_pass(self) -> (u32, PutPass<Handed<E>>)
        ensures put { puts_of result.1 ≡ self.put }
        ensures whole { parts_of result.1 ≡ all_parts }
        ensures ours { IsOfNamed (λ inbox. IsPutPassOf inbox result.1) (slice_get B.inboxes result.0) }
    {
        (self.number, self.pass)
    }

    /// Hands a socket over that is at home there. Err gives it back, where the inbox is full or it isn't such a one.
    pub(crate) fn hand<R: Wait>(
        &mut self,
        rt: &R,
        inboxes: &B,
        handed: Handed<E>,
    ) -> Result<(), Handed<E>>
        ensures put { OnOk result (self.new ≡ with_put handed self.old) }
        ensures home { OnOk result (IsAtHomeIn self.old.home handed) }
        ensures same { OnErr result (self.new ≡ self.old) }
        ensures back { IfErr result (λ back. back ≡ handed) }
        ensures refuses { OnErr result (Refuses handed self.old) }
    {
        if !handed.is_at_home(&self.home) {
            return Err(handed);
        }
        let Some(inbox) = inboxes.inbox(self.number) else {
            return Err(handed);
        };
        match inbox.put(rt, &mut self.pass, handed) {
            Ok(()) => Ok(()),
            Err(full) => Err(full.item),
        }
    }
}
