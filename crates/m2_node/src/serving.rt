//! The thread of a node's dispatcher, which takes what the node's event threads hand on.

ghost use Rattle.std.specs.Prelude.{◌≡◌, ◌<◌, Bool, length};
ghost use Rattle.m2_node.specs.Dispatching.{IsServing, LooksAt, LooksIntoAll, RunsServing, Serves, ServesOnce, StopsServing};
ghost use Rattle.m2_node.specs.Watching.{UntilStop, told};

use crate::dispatcher::NodeDispatcher;
use crate::mails::Mail;
use crate::node::Shares;
use crate::watch::Watch;
use crate::worker::{Signs, counted};
use m2_dispatch::Parcel;
use m2_edge::Clock;
use m2_mailbox::GetPass;
use std::marker::Model;
use std::sync::Wait;
use std::time::Duration;

/// How long a dispatcher waits at most where no mail holds anything, in milliseconds.
const WAIT_FOR_MAIL: u64 = 10;

/// A node's dispatcher with what its thread knows: what it shares with the event threads of its node, the rights to take out of
/// their mails, and the number of the first of these; whether it is on, which peers' posts count, how far it has counted what
/// it was called with, and what it was told by the signs. It can't be dropped, since letters can't.
pub(crate) struct Serving<'s> {
    pub(crate) dispatcher: NodeDispatcher<'s>,
    pub(crate) shares: &'s Shares,
    pub(crate) gets: Vec<GetPass<Parcel>>,
    pub(crate) first: usize,
    pub(crate) is_started: bool,
    pub(crate) counts: Vec<bool>,
    pub(crate) told: usize,
    pub(crate) watch: Watch,
}

impl<'s> Model for Serving<'s> {
    ghost use Rattle.m2_node.specs.Dispatching.{ServingNow};

    ghost Value = { ServingNow };

    ghost view = { λ s. record { dispatcher = s.dispatcher; gets = s.gets.items; first = s.first; started = s.is_started; watch = s.watch } };
}

impl<'s> Serving<'s> {
    /// Takes parcels out of the mails and has them dispatched until the signs say stop; one of a node that is off takes none.
    pub(crate) fn serve<R: Wait, C: Clock>(
        &mut self,
        rt: &R,
        mails: &[Mail],
        signs: &Signs,
        clock: &C,
    )
        requires { IsServing mails.now self.old }
        ensures served { IsServing mails.now self.new }
        ensures same { Serves self.old self.new }
        ensures runs { RunsServing mails.now self.old self.new }
    {
        if self.is_started {
            self.serve_rounds(rt, mails, signs, clock);
        }
    }

    /// The same of one that is on.
    fn serve_rounds<R: Wait, C: Clock>(&mut self, rt: &R, mails: &[Mail], signs: &Signs, clock: &C)
        requires { IsServing mails.now self.old }
        ensures served { IsServing mails.now self.new }
        ensures same { Serves self.old self.new }
        ensures runs { UntilStop (ServesOnce mails.now) StopsServing self.old self.new }
    {
        'rounds: for _ in rt.forever() {
            if !self.ask(signs, clock) {
                return;
            }
            self.serve_round(rt, mails, signs);
        }
        unreachable!()
    }

    /// Whether the signs say that it goes on.
    fn ask<C: Clock>(&mut self, signs: &Signs, clock: &C) -> bool
        ensures { self.new ≡ record self.old { watch = told result self.old.watch } }
    {
        self.watch.ask(signs, clock).is_some()
    }

    /// Takes a parcel out of each mail that holds one, and has it dispatched. Where none holds any the thread waits until something is
    /// put.
    fn serve_round<R: Wait>(&mut self, rt: &R, mails: &[Mail], signs: &Signs)
        requires { IsServing mails.now self.old }
        ensures served { IsServing mails.now self.new }
        ensures same { Serves self.old self.new }
        ensures watch { self.new.watch ≡ self.old.watch }
        ensures looks { (any : Bool) × LooksIntoAll mails.now any self.old self.new }
    {
        let shares = self.shares;
        let seen = shares.posted.notifications();
        if self.take_each(rt, mails) {
            self.count(signs);
        } else {
            shares
                .posted
                .sleep(rt, seen, Duration::from_millis(WAIT_FOR_MAIL));
        }
    }

    /// Takes a parcel out of each mail that holds one, and has it dispatched: whether there was one.
    fn take_each<R: Wait>(&mut self, rt: &R, mails: &[Mail]) -> bool
        requires { IsServing mails.now self.old }
        ensures served { IsServing mails.now self.new }
        ensures same { Serves self.old self.new }
        ensures watch { self.new.watch ≡ self.old.watch }
        ensures looks { LooksIntoAll mails.now result self.old self.new }
    {
        let mut any = false;
        'mails: for j in 0..self.gets.as_slice().len() {
            any |= self.take_one(rt, mails, j);
        }
        any
    }

    /// The same of this one of its mails.
    fn take_one<R: Wait>(&mut self, rt: &R, mails: &[Mail], j: usize) -> bool
        requires serves { IsServing mails.now self.old }
        requires place { j < length self.old.gets }
        ensures served { IsServing mails.now self.new }
        ensures same { Serves self.old self.new }
        ensures watch { self.new.watch ≡ self.old.watch }
        ensures looks { LooksAt mails.now j result self.old self.new }
    {
        if self.first >= mails.len() || j >= mails.len() - self.first {
            return false;
        }
        let mail = &mails[self.first + j];
        match mail.take(rt, &mut self.gets[j]) {
            None => false,
            Some(parcel) => {
                self.dispatcher.dispatch(parcel);
                true
            }
        }
    }

    /// Tells what was dispatched since; and the event threads of its node that something was given back, and a mail has room.
    fn count(&mut self, signs: &Signs)
        ensures { self.new ≡ self.old }
    {
        let shares = self.shares;
        shares.given.notify_all();
        let log = self.dispatcher.log();
        let done = counted(log, self.told, self.counts.as_slice());
        let told = log.len();
        self.told = told;
        signs.tell_dispatched(done);
        if self.dispatcher.is_lost() {
            signs.tell_full();
        }
    }
}
