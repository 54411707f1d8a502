//! A side of a pair.

ghost use Rattle.std.specs.Prelude.{◌≡◌, ◌-◌, ◌<◌, ◌≤◌, ◌⊎◌, ◌∷◌, ◌++◌, [], length, map, option_map, IfOk, OnOk, OnErr};
ghost use Rattle.std.specs.Bool.{OnTrue};
ghost use Rattle.std.specs.List.{list_any};
ghost use Rattle.std.specs.Option.{option_to_list};
ghost use Rattle.m2_session.specs.declared.cookie.TheConstants.{MOST_PLACES};
ghost use Rattle.m2_fabric.specs.Log.{log_of};
ghost use Rattle.m2_fabric.specs.Sockets.{same_socket};
ghost use Rattle.m2_message.specs.Message.{IsSendable};
ghost use Rattle.m2_shared.specs.declared.limits.TheConstants.{MOST_TAKEN};
ghost use Rattle.m2_record.specs.Calls.{AddsStep};
ghost use Rattle.m2_record.specs.IsRecord.{CanBePlanned};
ghost use Rattle.m2_record.specs.m2_core.Waits.{AreWaits};
ghost use Rattle.m2_trail.specs.Arrivals.{left_of};
ghost use Rattle.m2_record_trace.specs.Hearing.{side_hears, half_hears};
ghost use Rattle.m2_record_trace.specs.SideNow.{ends_seen, left_out, log_in, new_side, untaken};
ghost use Rattle.m2_record_trace.specs.Steps.{TakesStep};

use crate::dispatching::{dispatch, step_record};
use crate::step::SideStep;
use m2_addr::Addr;
use m2_bytes::{Items, NoMemory};
use m2_dispatch::LoggedList;
use m2_fabric::{End, EndLog, News, SimEnd, SocketId};
use m2_journal::{NodeFacts, PlanStep};
use m2_message::{MOST_PART, Message};
use m2_policy::Policy;
use m2_record::Record;
use m2_shared::{Bounds, NumberPass, Numbers, PeerType, TakePasses, Throttles};
use m2_trail::{Incoming, Loose, LooseList};
use std::alloc::Global;
use std::marker::Model;

/// A side of a pair: a record over ends in memory, with a counter of global numbers and throttles of its own; the sockets of
/// the peer that it has accepted and not taken; and the calls of its dispatchers, which take each parcel at once.
///
/// Maker: [`new`](Side::new). Readers: [`record`](Side::record), [`halves`](Side::halves), [`loose`](Side::loose),
/// [`log`](Side::log), [`fast`](Side::fast), [`out`](Side::out). A [`Pair`](crate::Pair) drives it. It can't be dropped, since
/// its record can't.
pub struct Side {
    pub(crate) alloc: Global,
    pub(crate) record: Record<SimEnd>,
    /// The bound of its dispatch.
    pub(crate) limit: u64,
    pub(crate) numbers: Numbers,
    pub(crate) number_pass: NumberPass,
    pub(crate) throttles: Throttles,
    pub(crate) passes: TakePasses,
    /// The sockets of the peer that are open and not taken.
    pub(crate) halves: Vec<Incoming<SimEnd>>,
    /// Those that were closed or left, and never taken.
    pub(crate) loose: LooseList<SimEnd>,
    /// What was dispatched behind the queue, and at once.
    pub(crate) log: LoggedList,
    pub(crate) fast: LoggedList,
    /// How many sockets it opened.
    pub(crate) opened: u32,
}

impl Model for Side {
    ghost use Rattle.m2_shared.specs.Gates.{dispatch, words};
    ghost use Rattle.m2_record_trace.specs.SideNow.{IsSide, SideNow};

    ghost Value = { SideNow };

    ghost view = { λ s. record {
      kept = s.record;
      limit = s.limit;
      out = words s.passes dispatch;
      halves = s.halves.items;
      loose = s.loose.items;
      log = s.log.items;
      fast = s.fast.items;
    } };

    ghost invariant = { λ s. IsSide (record { numbers = s.numbers; number_pass = s.number_pass; throttles = s.throttles; passes = s.passes }) s.limit s.record };
}

impl Side {
    /// A side towards this peer, of which nothing is planned. `mine` is its node's address, `place` the peer's place among the
    /// nodes, and `limit` the most bytes that its dispatch lets out.
    pub fn new(
        alloc: Global,
        mine: Addr,
        peer: Addr,
        place: u32,
        policy: Policy,
        facts: NodeFacts,
        limit: u64,
    ) -> Side
        requires node { facts.number < MOST_PLACES }
        requires place { place < MOST_PLACES }
        requires waits { AreWaits facts }
        requires some { 0 < limit }
        requires most { limit ≤ MOST_TAKEN }
        ensures { result ≡ new_side (record { mine = mine; peer = peer; policy = policy; node = facts }) place limit result.kept.room }
    {
        let (numbers, number_pass) = Numbers::alone();
        let (throttles, passes) = Throttles::alone(&Bounds::of_dispatch(limit));
        Side {
            alloc,
            record: Record::new(alloc, mine, peer, place, policy, facts, PeerType::Osd),
            limit,
            numbers,
            number_pass,
            throttles,
            passes,
            halves: Vec::new(alloc),
            loose: Items::empty(alloc),
            log: Items::empty(alloc),
            fast: Items::empty(alloc),
            opened: 0,
        }
    }

    /// Its record.
    pub fn record(&self) -> &Record<SimEnd>
        ensures { result.now ≡ self.now.kept }
    {
        &self.record
    }

    /// The sockets of the peer that are open and not taken, in the order in which they were accepted.
    pub fn halves(&self) -> &[Incoming<SimEnd>]
        ensures { result.now ≡ self.now.halves }
    {
        self.halves.as_slice()
    }

    /// The sockets of the peer that were closed and never taken.
    pub fn loose(&self) -> &LooseList<SimEnd>
        ensures { result.now.items ≡ self.now.loose }
    {
        &self.loose
    }

    /// What its dispatcher behind the queue was called with, each parcel at once.
    pub fn log(&self) -> &LoggedList
        ensures { result.now.items ≡ self.now.log }
    {
        &self.log
    }

    /// What its dispatcher was called with that takes messages at once.
    pub fn fast(&self) -> &LoggedList
        ensures { result.now.items ≡ self.now.fast }
    {
        &self.fast
    }

    /// How many bytes the throttle of its dispatch has granted that aren't back.
    pub fn out(&mut self) -> u64
        ensures out { result ≡ self.old.out }
        ensures same { self.new ≡ self.old }
    {
        self.bytes_out()
    }

    fn bytes_out(&self) -> u64
        ensures { result ≡ self.now.out }
    {
        match self.passes.dispatch.out() {
            Some(out) => out,
            None => unreachable!(),
        }
    }

    /// Adds a step at the end of the plan. Err hands it back: for want of memory, or where the plan has as many steps as it may
    /// have, or where a part of the message is longer than a segment may be.
    pub(crate) fn plan(&mut self, step: PlanStep) -> Result<(), PlanStep>
        ensures adds { AddsStep result step self.old.kept self.new.kept }
        ensures only { self.new ≡ record self.old { kept = self.new.kept } }
    {
        if can_be_planned(&step) {
            self.record.plan_add(step)
        } else {
            Err(step)
        }
    }

    /// Takes the first step of the record that is due. A parcel that it hands out is dispatched at once.
    pub(crate) fn step(&mut self, now: u64) -> SideStep
        ensures { TakesStep result now self.old self.new }
    {
        if room_to_log(&mut self.log, &mut self.fast).is_err() {
            return SideStep::NoMemory;
        }
        let stepped = step_record(
            &mut self.record,
            &self.numbers,
            &mut self.number_pass,
            &self.throttles,
            &mut self.passes,
            now,
        );
        dispatch(
            stepped,
            &self.throttles,
            &mut self.passes,
            &mut self.log,
            &mut self.fast,
        )
    }

    /// What its end of a socket did; none where it has no such end.
    pub(crate) fn log_at(&self, socket: &SocketId) -> Option<&EndLog>
        ensures { option_map (λ l. log_of l.now) result ≡ log_in (ends_seen self.now) socket.now }
    {
        let feed = log_of_feed(self.record.feed(), socket);
        let open = log_of_half(self.halves.as_slice(), socket);
        let spent = log_of_end(self.record.spent(), socket);
        let loose = log_of_loose(self.loose.as_slice(), socket);
        feed.or(open).or(spent).or(loose)
    }

    /// Tells its end of a socket of the other side, where it has it and the end isn't one that it left. Err for want of memory
    /// changes nothing.
    pub(crate) fn hear(
        &mut self,
        socket: &SocketId,
        bytes: &[u8],
        news: News,
    ) -> Result<(), NoMemory>
        ensures ok { OnOk result (self.new ≡ side_hears socket.now news bytes.now self.old) }
        ensures err { OnErr result (self.new ≡ self.old) }
    {
        if has_half(self.halves.as_slice(), socket) {
            half_hears(self.halves.as_mut_slice(), socket, bytes, news)
        } else {
            self.record.hear(socket, bytes, news)
        }
    }

    /// How many sockets of the peer it has accepted and not taken. Err where that is no number.
    pub(crate) fn count(&self) -> Result<usize, NoMemory>
        ensures { IfOk result (λ n. n ≡ length (untaken self.now)) }
    {
        self.loose
            .len()
            .checked_add(self.halves.len())
            .ok_or(NoMemory)
    }

    /// Leaves all sockets of the peer that aren't taken as they are, and moves them, with those that were closed, to the end of
    /// a list that has room for them.
    pub(crate) fn leave_all(&mut self, loose: &mut LooseList<SimEnd>)
        requires room { length (untaken self.old) ≤ loose.old.room }
        ensures left { loose.new.items ≡ loose.old.items ++ untaken self.old }
        ensures room { loose.new.room ≡ loose.old.room - length (untaken self.old) }
        ensures none { self.new ≡ record self.old { halves = []; loose = [] } }
    {
        let closed = std::mem::replace(&mut self.loose, Items::empty(self.alloc));
        move_all(closed.into_vec(), loose);
        let halves = std::mem::replace(&mut self.halves, Vec::new(self.alloc));
        leave_all(halves, loose);
    }

    /// Ends the record, which gives back what it holds. How many bytes the throttle of its dispatch has granted that aren't back.
    pub(crate) fn finish(self) -> u64
        ensures { result ≡ left_out self }
    {
        let Side {
            alloc: _,
            record,
            limit: _,
            numbers: _,
            number_pass: _,
            throttles,
            mut passes,
            halves: _,
            loose: _,
            log: _,
            fast: _,
            opened: _,
        } = self;
        let _ends = record.ends(&throttles, &mut passes);
        throttles.close(passes)
    }
}

/// What the feed's end did, where it is one of this socket.
fn log_of_feed<'a>(feed: Option<&'a SimEnd>, socket: &SocketId) -> Option<&'a EndLog>
    ensures { option_map (λ l. log_of l.now) result ≡ log_in (option_to_list (option_map (λ e. e.now) feed.entry)) socket.now }
{
    match feed {
        Some(end) if socket.is_same(&end.id()) => Some(end.log()),
        _ => None,
    }
}

/// What the first of these ends did that is one of this socket.
fn log_of_end<'a>(ends: &'a [SimEnd], socket: &SocketId) -> Option<&'a EndLog>
    ensures { option_map (λ l. log_of l.now) result ≡ log_in ends.now socket.now }
{
    for end in ends {
        if socket.is_same(&end.id()) {
            return Some(end.log());
        }
    }
    None
}

/// The same of these halves.
fn log_of_half<'a>(halves: &'a [Incoming<SimEnd>], socket: &SocketId) -> Option<&'a EndLog>
    ensures { option_map (λ l. log_of l.now) result ≡ log_in (map (λ h. h.end) halves.now) socket.now }
{
    for half in halves {
        if socket.is_same(&half.id()) {
            return Some(half.end().log());
        }
    }
    None
}

/// The same of those that were left.
fn log_of_loose<'a>(loose: &'a [Loose<SimEnd>], socket: &SocketId) -> Option<&'a EndLog>
    ensures { option_map (λ l. log_of l.now) result ≡ log_in (map (λ l. l.end) loose.now) socket.now }
{
    for half in loose {
        if socket.is_same(&half.id()) {
            return Some(half.end().log());
        }
    }
    None
}

/// Moves sockets to the end of a list that has room for them.
fn move_all(closed: Vec<Loose<SimEnd>>, loose: &mut LooseList<SimEnd>)
    requires room { length closed.items ≤ loose.old.room }
    ensures items { loose.new.items ≡ loose.old.items ++ closed.items }
    ensures room { loose.new.room ≡ loose.old.room - length closed.items }
{
    'closed: for half in closed {
        loose.push_reserved(half);
    }
}

/// Leaves halves as they are, and moves them so.
fn leave_all(halves: Vec<Incoming<SimEnd>>, loose: &mut LooseList<SimEnd>)
    requires room { length halves.items ≤ loose.old.room }
    ensures items { loose.new.items ≡ loose.old.items ++ map left_of halves.items }
    ensures room { loose.new.room ≡ loose.old.room - length halves.items }
{
    'open: for half in halves {
        loose.push_reserved(half.leave());
    }
}

/// Puts a socket at the end of a list, where memory lasts.
pub(crate) fn put(loose: &mut LooseList<SimEnd>, half: Loose<SimEnd>)
    ensures { (loose.new.items ≡ loose.old.items ++ half ∷ []) ⊎ (loose.new.items ≡ loose.old.items) }
{
    match loose.push(half) {
        Ok(()) => {}
        Err(_half) => {}
    }
}

/// Whether a step may stand in a plan: each part of a message fits a segment.
fn can_be_planned(step: &PlanStep) -> bool
    ensures { OnTrue result (CanBePlanned step.now) }
{
    match step {
        PlanStep::Post(message) => is_sendable(message),
        PlanStep::Dial | PlanStep::Down => true,
    }
}

/// Whether each part of a message fits a segment.
fn is_sendable(message: &Message) -> bool
    ensures { OnTrue result (IsSendable message.now) }
{
    if message.front.len() > MOST_PART || message.middle.len() > MOST_PART {
        return false;
    }
    message.tail.len() <= MOST_PART
}

/// Makes room for one call in each log.
fn room_to_log(log: &mut LoggedList, fast: &mut LoggedList) -> Result<(), NoMemory>
    ensures log { log.new.items ≡ log.old.items }
    ensures fast { fast.new.items ≡ fast.old.items }
    ensures room { OnOk result ((0 < log.new.room) × (0 < fast.new.room)) }
{
    log.reserve(1)?;
    fast.reserve(1)
}

/// Whether there is a half of a socket.
fn has_half(halves: &[Incoming<SimEnd>], socket: &SocketId) -> bool
    ensures { result ≡ list_any (λ v. same_socket socket.now v.end.id) halves.now }
{
    for half in halves {
        if socket.is_same(&half.id()) {
            return true;
        }
    }
    false
}

/// Tells the first half of a socket, if there is one.
fn half_hears(
    halves: &mut [Incoming<SimEnd>],
    socket: &SocketId,
    bytes: &[u8],
    news: News,
) -> Result<(), NoMemory>
    ensures ok { OnOk result (halves.new ≡ half_hears socket.now news bytes.now halves.old) }
    ensures err { OnErr result (halves.new ≡ halves.old) }
{
    match halves.split_first_mut() {
        None => Ok(()),
        Some((first, rest)) => {
            if socket.is_same(&first.id()) {
                first.hear(bytes, news)
            } else {
                half_hears(rest, socket, bytes, news)
            }
        }
    }
}
