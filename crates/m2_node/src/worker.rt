//! An event thread of a run: a center that takes turns until it is told to stop.

ghost use Rattle.std.specs.Bool.{OnFalse, OnTrue};
ghost use Rattle.std.specs.Prelude.{◌≡◌, ◌⊎◌, IfSome, drop, is_some, true};
ghost use Rattle.m2_dispatch.specs.Heard.{heard_by};
ghost use Rattle.m2_dispatch.specs.m2_shared.Gates.{AreShared, pass_places, places};
ghost use Rattle.m2_edge.specs.Clock.{IsNextMoment};
ghost use Rattle.m2_script.specs.m2_center.m2_turn.HandingOn.{HandsOn};
ghost use Rattle.m2_node.specs.Counting.{count_in, count_on, does_count};
ghost use Rattle.m2_node.specs.Nodes.{IsServedBy};
ghost use Rattle.m2_node.specs.Watching.{new_watch, told};
ghost use Rattle.m2_node.specs.Way.{PollsSo, StepsSo};
ghost use Rattle.m2_node.specs.Working.{Stops, TurnsOnce, WaitsOnce};
ghost use Rattle.m2_node.specs.declared.end.RunEnd.{RunEnd};

use crate::node::{RunCenter, Shares, turn_center};
use crate::watch::Watch;
use m2_bytes::NoMemory;
use m2_dispatch::{Logged, Parcel};
use m2_edge::{Clock, Gate};
use m2_fabric::{End, Port};
use m2_script::{CenterTurn, Due, Record};
use std::collections::VecDeque;
use std::marker::Model;
use std::sync::Wait;
use std::sync::atomic::{AtomicBool, AtomicU64, Ordering};
use std::time::Duration;

/// How long a thread waits at its port behind a turn that did nothing, in milliseconds.
const WAIT: u32 = 10;

/// How long it waits at most until another thread gives back what a throttle has granted, or makes room in its mail, in
/// milliseconds; it hears nothing of its sockets so long.
const WAIT_FOR_ROOM: u64 = 1;

/// What the threads of a run tell one another, so that they know when to stop. No clause says anything of it: what came
/// of the run is computed when they have ended. So signs that never say stop, or say so at once, break no clause.
#[derive(Drop)]
pub struct Signs {
    /// How many posts that count weren't dispatched yet.
    pub(crate) left: AtomicU64,
    /// The moment of the last productive entry.
    pub(crate) last: AtomicU64,
    /// Whether memory ran out in a turn.
    pub(crate) is_full: AtomicBool,
    /// After how many milliseconds without a productive entry they stop.
    pub(crate) limit: u64,
}

impl Signs {
    /// Signs at the start, where so many posts count.
    pub fn new(posts: u64, start: u64, limit: u64) -> Signs {
        Signs {
            left: AtomicU64::new(posts),
            last: AtomicU64::new(start),
            is_full: AtomicBool::new(false),
            limit,
        }
    }

    /// Whether threads stop at this moment.
    pub(crate) fn say_stop(&self, now: u64) -> bool {
        if self.left.load(Ordering::SeqCst) == 0 || self.is_full.load(Ordering::SeqCst) {
            return true;
        }
        now >= self.last.load(Ordering::SeqCst).saturating_add(self.limit)
    }

    /// So many posts that count were dispatched.
    pub(crate) fn tell_dispatched(&self, done: u64) {
        self.left.fetch_sub(done, Ordering::SeqCst);
    }

    /// Memory ran out.
    pub(crate) fn tell_full(&self) {
        self.is_full.store(true, Ordering::SeqCst);
    }
}

/// A center with what its thread knows: what it shares with the others of its node; its number among all threads, whether it is
/// on, the moment of its last turn; which peers' posts count, how far it has counted what its dispatcher of fast kinds was
/// called with, and what it was told by the signs. It can't be dropped, since a center can't.
pub struct Worker<'s, P: Port> {
    center: RunCenter<P>,
    shares: &'s Shares,
    number: u32,
    is_started: bool,
    moment: u64,
    counts: Vec<bool>,
    fast: usize,
    watch: Watch,
    ghost numbers: { center.numbers.place ≡ shares.now.numbers.place },
    ghost throttles: { pass_places center.bytes ≡ places shares.now.throttles },
}

impl<'s, P: Port> Model for Worker<'s, P> {
    ghost use Rattle.m2_node.specs.Working.{WorkerNow};

    ghost Value = { WorkerNow };

    ghost view = { λ w. record { center = w.center; numbers = w.shares.now.numbers; throttles = w.shares.now.throttles; started = w.is_started; moment = w.moment; watch = w.watch } };
}

impl<'s, P: Port> Worker<'s, P> {
    /// A worker that took no turn yet. `counts` says of each node whether its posts to this one count.
    pub(crate) fn new(
        center: RunCenter<P>,
        shares: &'s Shares,
        number: u32,
        is_started: bool,
        moment: u64,
        counts: Vec<bool>,
    ) -> Worker<'s, P>
        requires { IsServedBy shares.now.numbers shares.now.throttles center }
        ensures { result ≡ record { center = center; numbers = shares.now.numbers; throttles = shares.now.throttles; started = is_started; moment = moment; watch = new_watch } }
    {
        Worker {
            center,
            shares,
            number,
            is_started,
            moment,
            counts,
            fast: 0,
            watch: Watch::new(),
        }
    }

    /// The moment of its last turn.
    pub(crate) fn moment(&self) -> u64
        ensures { result ≡ self.now.moment }
    {
        self.moment
    }

    /// Its center, and what that shares with the others of its node.
    pub(crate) fn into_parts(self) -> (RunCenter<P>, &'s Shares)
        ensures center { result.0 ≡ self.entry.center }
        ensures shared_numbers { result.1.now.numbers ≡ self.entry.numbers }
        ensures shared_throttles { result.1.now.throttles ≡ self.entry.throttles }
        ensures served { IsServedBy self.entry.numbers self.entry.throttles self.entry.center }
    {
        let Worker {
            center,
            shares,
            number: _,
            is_started: _,
            moment: _,
            counts: _,
            fast: _,
            watch: _,
        } = self;
        (center, shares)
    }

    /// Whether its node is on.
    pub(crate) fn is_started(&self) -> bool
        ensures { result ≡ self.now.started }
    {
        self.is_started
    }

    /// Which peers' posts count.
    pub(crate) fn counts(&self) -> Result<Vec<bool>, NoMemory> {
        Ok(self.counts.clone()?)
    }

    /// How often it was told so far that something may have been given back or has room again: what a wait for that is told.
    pub(crate) fn given(&self) -> u64 {
        let shares = self.shares;
        shares.given.notifications()
    }

    /// One turn, unless the signs say stop: whether it took one. What it hands on goes last among these parcels. Where a throttle
    /// has no room it waits until something is given back, unless that was told since `seen`.
    pub(crate) fn go_on<R: Wait, C: Clock, G: Gate>(
        &mut self,
        rt: &R,
        seen: u64,
        signs: &Signs,
        clock: &C,
        gate: &G,
        into: &mut VecDeque<Parcel>,
    ) -> bool
        requires started { self.old.started ≡ true }
        requires shared { AreShared self.old.throttles }
        ensures turns { OnTrue result (TurnsOnce (RunEnd P.End) (C.may_give clock.now) self.old self.new) }
        ensures stops { OnFalse result (Stops self.old self.new) }
        ensures on { HandsOn heard_by (places self.old.throttles) self.old.center.queued.inner self.new.center.queued.inner into.old.items into.new.items }
    {
        let Some(now) = self.ask(signs, clock) else {
            return false;
        };
        gate.pass(self.number());
        self.step(rt, seen, signs, now, into);
        true
    }

    /// Waits until its mail has room again, unless that was told since `seen`, and hears what came at its port meanwhile; unless
    /// the signs say stop: whether it did.
    pub(crate) fn wait<R: Wait, C: Clock>(
        &mut self,
        rt: &R,
        seen: u64,
        signs: &Signs,
        clock: &C,
    ) -> bool
        requires { self.old.started ≡ true }
        ensures waits { OnTrue result (WaitsOnce self.old self.new) }
        ensures stops { OnFalse result (Stops self.old self.new) }
        ensures same { self.new.center.queued ≡ self.old.center.queued }
    {
        let Some(_) = self.ask(signs, clock) else {
            return false;
        };
        self.poll_when_given(rt, seen);
        true
    }

    /// Waits until something may have been given back, unless that was told since `seen`, and then hears what came at its port.
    fn poll_when_given<R: Wait>(&mut self, rt: &R, seen: u64)
        ensures same { self.new ≡ record self.old { center = self.new.center } }
        ensures polls { PollsSo self.old.center self.new.center }
    {
        let _ = self.center.poll(sleep_until_given(rt, self.shares, seen));
    }

    /// Tells the dispatcher of its node that something was put into the mail.
    pub(crate) fn tell_posted(&self) {
        let shares = self.shares;
        shares.posted.notify_one();
    }

    /// Its number among all threads.
    fn number(&self) -> u32 {
        self.number
    }

    /// The moment for a turn, unless the signs say stop.
    fn ask<C: Clock>(&mut self, signs: &Signs, clock: &C) -> Option<u64>
        ensures told { self.new ≡ record self.old { watch = told (is_some result) self.old.watch } }
        ensures moment { IfSome result (λ now. IsNextMoment (C.may_give clock.now) self.old.moment now) }
    {
        let Some(now) = self.watch.ask(signs, clock) else {
            return None;
        };
        Some(self.moment.max(now))
    }

    /// One turn at this moment, which the others are told; where it did nothing the thread waits.
    fn step<R: Wait>(
        &mut self,
        rt: &R,
        seen: u64,
        signs: &Signs,
        now: u64,
        into: &mut VecDeque<Parcel>,
    )
        requires shared { AreShared self.old.throttles }
        ensures moment { self.new.moment ≡ now }
        ensures started { self.new.started ≡ self.old.started }
        ensures numbers { self.new.numbers ≡ self.old.numbers }
        ensures throttles { self.new.throttles ≡ self.old.throttles }
        ensures watch { self.new.watch ≡ self.old.watch }
        ensures steps { StepsSo (RunEnd P.End) now self.old.numbers self.old.throttles self.old.center self.new.center }
        ensures on { HandsOn heard_by (places self.old.throttles) self.old.center.queued.inner self.new.center.queued.inner into.old.items into.new.items }
    {
        let turn = turn_center(&mut self.center, self.shares.shared(), now, into);
        self.moment = now;
        match turn {
            CenterTurn::Moved => self.tell(signs),
            CenterTurn::Dry => self.rest(rt, seen, now),
            CenterTurn::NoMemory => signs.tell_full(),
        }
    }

    /// Waits at its port; where a throttle has no room, until something is given back, unless that was told since `seen`.
    fn rest<R: Wait>(&mut self, rt: &R, seen: u64, now: u64)
        ensures same { self.new ≡ record self.old { center = self.new.center } }
        ensures waits { (self.new.center ≡ self.old.center) ⊎ PollsSo self.old.center self.new.center }
    {
        let most = if wait_for_room(self.center.records(), now) {
            sleep_until_given(rt, self.shares, seen)
        } else {
            WAIT
        };
        let _ = self.center.poll(most);
    }

    /// Tells the others what was dispatched at once since, and the moment of the last productive entry; and those of its node that
    /// something may have been given back.
    fn tell(&mut self, signs: &Signs)
        ensures { self.new ≡ self.old }
    {
        self.count(signs);
        let shares = self.shares;
        shares.given.notify_all();
    }

    /// Tells what was dispatched at once since, and the moment of the last productive entry.
    fn count(&mut self, signs: &Signs)
        ensures { self.new ≡ self.old }
    {
        let fast = self.center.fast().log().as_slice();
        let done = counted(fast, self.fast, self.counts.as_slice());
        let fast = fast.len();
        let last = last_of(self.center.records());
        self.fast = fast;
        signs.tell_dispatched(done);
        signs.last.fetch_max(last, Ordering::SeqCst);
    }
}

/// Sleeps until something may have been given back, unless that was told since `seen`: no time is left for a wait at the port.
fn sleep_until_given<R: Wait>(rt: &R, shares: &Shares, seen: u64) -> u32 {
    shares
        .given
        .sleep(rt, seen, Duration::from_millis(WAIT_FOR_ROOM));
    0
}

/// Whether one of these records has read a message for which a throttle has no room.
fn wait_for_room<E: End>(records: &[Record<E>], now: u64) -> bool {
    records.iter().any(|side| side.due(now) == Due::Frame)
}

/// How many messages that count stand in a log from this place on.
pub(crate) fn counted(log: &[Logged], from: usize, counts: &[bool]) -> u64
    ensures { result ≡ count_in counts.now (drop from log.now) }
{
    let mut count: u64 = 0;
    'calls: for k in from..log.len() {
        count = count_call(count, is_counted(&log[k], counts));
    }
    count
}

/// So many, with one call more, which counts or not.
fn count_call(count: u64, counts: bool) -> u64
    ensures { result ≡ count_on counts count }
{
    if counts {
        count.saturating_add(1)
    } else {
        count
    }
}

/// Whether a call is a message of a node whose posts count.
fn is_counted(call: &Logged, counts: &[bool]) -> bool
    ensures { result ≡ does_count counts.now call.now }
{
    match call {
        Logged::Message { peer, .. } => counts.get(*peer as usize).copied().unwrap_or(false),
        Logged::Reset { .. } => false,
    }
}

/// The moment of the last productive entry of these records, or 0.
fn last_of<E: End>(records: &[Record<E>]) -> u64 {
    let mut last = 0;
    'records: for side in records {
        if side.last() > last {
            last = side.last();
        }
    }
    last
}
