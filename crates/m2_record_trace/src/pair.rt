//! Two sides, and the sockets between them.

ghost use Rattle.std.specs.Prelude.{◌≡◌, ◌+◌, ◌≤◌, ◌++◌, [], length, slice_get, IfOk, OnOk, OnErr};
ghost use Rattle.std.specs.Bool.{OnTrue, OnFalse};
ghost use Rattle.m2_record.specs.Calls.{AddsStep, after_missing};
ghost use Rattle.m2_record_trace.specs.PairNow.{ConnectsAs, OnlyAt, between, hears_on, other, side_at, with_side, without_halves};
ghost use Rattle.m2_record_trace.specs.SideNow.{OnlyAccepts, OnlyArrives, left_out, untaken};
ghost use Rattle.m2_record_trace.specs.Steps.{TakesStep};
ghost use Rattle.m2_record_trace.specs.Wires.{after_flow};

use crate::side::Side;
use crate::step::{Connecting, SideStep};
use crate::which::Which;
use crate::wire::Wire;
use m2_bytes::{Items, NoMemory};
use m2_fabric::{News, SimEnd, SocketId};
use m2_journal::PlanStep;
use m2_trail::LooseList;
use std::alloc::Global;
use std::marker::Model;

/// Two sides and the sockets that were opened between them. Nothing flows by itself.
///
/// Maker: [`new`](Pair::new). Readers: [`side`](Pair::side), [`wires`](Pair::wires), [`out`](Pair::out). What a side does:
/// [`plan`](Pair::plan), [`connect`](Pair::connect), [`miss`](Pair::miss), [`step`](Pair::step), [`arrivals`](Pair::arrivals),
/// and [`turn`](Pair::turn), which is all of it. What comes of the sockets: [`flow`](Pair::flow), [`fault`](Pair::fault),
/// [`hear`](Pair::hear). The end: [`take_loose`](Pair::take_loose), [`finish`](Pair::finish). It can't be dropped, since records
/// can't.
pub struct Pair {
    alloc: Global,
    first: Side,
    second: Side,
    wires: Vec<Wire>,
}

impl Model for Pair {
    ghost use Rattle.m2_record_trace.specs.PairNow.{PairNow};

    ghost Value = { PairNow };

    ghost view = { λ p. record { first = p.first; second = p.second; wires = p.wires.items } };
}

impl Pair {
    /// Two sides that have opened no socket.
    pub fn new(alloc: Global, first: Side, second: Side) -> Pair
        ensures { result ≡ record { first = first; second = second; wires = [] } }
    {
        Pair {
            alloc,
            first,
            second,
            wires: Vec::new(alloc),
        }
    }

    /// One of the two.
    pub fn side(&self, at: Which) -> &Side
        ensures { result.now ≡ side_at at self.now }
    {
        match at {
            Which::First => &self.first,
            Which::Second => &self.second,
        }
    }

    /// The sockets between them, in the order in which they were opened.
    pub fn wires(&self) -> &[Wire]
        ensures { result.now ≡ self.now.wires }
    {
        self.wires.as_slice()
    }

    /// How many bytes the throttle of a side has granted that aren't back.
    pub fn out(&mut self, at: Which) -> u64
        ensures out { result ≡ (side_at at self.old).out }
        ensures same { self.new ≡ self.old }
    {
        match at {
            Which::First => self.first.out(),
            Which::Second => self.second.out(),
        }
    }

    /// Adds a step at the end of a side's plan. Err hands it back: for want of memory, or where the plan has as many steps as it
    /// may have, or where a part of the message is longer than a segment may be.
    pub fn plan(&mut self, at: Which, step: PlanStep) -> Result<(), PlanStep>
        ensures adds { AddsStep result step (side_at at self.old).kept (side_at at self.new).kept }
        ensures only { self.new ≡ with_side at (record (side_at at self.old) { kept = (side_at at self.new).kept }) self.old }
    {
        match at {
            Which::First => self.first.plan(step),
            Which::Second => self.second.plan(step),
        }
    }

    /// Opens a socket from a side, where a connect is due: it is that side's feed, and waits at the other for its half to be
    /// asked.
    pub fn connect(&mut self, at: Which, now: u64) -> Connecting
        ensures { ConnectsAs result at (between at self.old) (between at self.new) }
    {
        match at {
            Which::First => open(&mut self.first, &mut self.second, &mut self.wires, at, now),
            Which::Second => open(&mut self.second, &mut self.first, &mut self.wires, at, now),
        }
    }

    /// A connect of a side that is due fails. Whether one was due.
    pub fn miss(&mut self, at: Which, now: u64) -> bool
        ensures due { OnTrue result (self.new ≡ with_side at (record (side_at at self.old) { kept = after_missing now (side_at at self.old).kept }) self.old) }
        ensures none { OnFalse result (self.new ≡ self.old) }
    {
        match at {
            Which::First => self.first.miss(now),
            Which::Second => self.second.miss(now),
        }
    }

    /// Takes the first step of a side's record that is due. A parcel that it hands out is dispatched at once.
    pub fn step(&mut self, at: Which, now: u64) -> SideStep
        ensures takes { TakesStep result now (side_at at self.old) (side_at at self.new) }
        ensures only { OnlyAt at self.old self.new }
    {
        match at {
            Which::First => self.first.step(now),
            Which::Second => self.second.step(now),
        }
    }

    /// Each half of a side reads, answers and writes until it rests, and where it is asked, its ask is judged. Err is want of
    /// memory before anything was done.
    pub fn arrivals(&mut self, at: Which, now: u64) -> Result<(), NoMemory>
        ensures arrives { OnlyArrives (side_at at self.old) (side_at at self.new) }
        ensures only { OnlyAt at self.old self.new }
        ensures err { OnErr result (self.new ≡ self.old) }
    {
        match at {
            Which::First => self.first.arrivals(now),
            Which::Second => self.second.arrivals(now),
        }
    }

    /// A side's turn: it connects where that is due, and takes steps until none moves, or so many; then its halves go on. How
    /// many steps moved. The other side accepts the sockets that are opened, and does nothing else.
    pub fn turn(&mut self, at: Which, now: u64, most: u32) -> u32
        ensures most { result ≤ most }
        ensures other { OnlyAccepts (side_at (other at) self.old) (side_at (other at) self.new) }
    {
        let mut moved = 0;
        'steps: for taken in 0..most {
            let _opened = self.connect(at, now);
            if !self.step(at, now).has_moved() {
                break;
            }
            moved = taken + 1;
        }
        let _went = self.arrivals(at, now);
        moved
    }

    /// Lets at most so many bytes flow from a side on a socket, the place of a wire. Where the side's end is closed, the other is
    /// told so, and behind the last byte that nothing more will come. To an end that is closed nothing flows. How many bytes
    /// flowed.
    pub fn flow(&mut self, from: Which, wire: usize, most: usize) -> usize
        ensures most { result ≤ most }
        ensures writer { side_at from self.new ≡ side_at from self.old }
        ensures wires { self.new.wires ≡ after_flow from wire result self.old.wires }
    {
        if wire >= self.wires.len() {
            return 0;
        }
        let kept = self.wires[wire];
        let done = kept.flowed(from);
        let flowed = match from {
            Which::First => pass(&self.first, &mut self.second, &kept.socket, done, most),
            Which::Second => pass(&self.second, &mut self.first, &kept.socket, done, most),
        };
        self.wires[wire] = kept.with_flowed(from, flowed);
        flowed - done
    }

    /// Tells a side's end of a socket of the other side, the place of a wire. Err for want of memory changes nothing.
    pub fn hear(&mut self, at: Which, wire: usize, bytes: &[u8], news: News) -> Result<(), NoMemory>
        ensures ok { OnOk result (self.new ≡ with_side at (hears_on (slice_get self.old.wires wire) news bytes.now (side_at at self.old)) self.old) }
        ensures err { OnErr result (self.new ≡ self.old) }
    {
        if wire >= self.wires.len() {
            return Ok(());
        }
        let socket = self.wires[wire].socket;
        match at {
            Which::First => self.first.hear(&socket, bytes, news),
            Which::Second => self.second.hear(&socket, bytes, news),
        }
    }

    /// A side's end of a socket, the place of a wire, fails from now on.
    pub fn fault(&mut self, at: Which, wire: usize)
        ensures { OnlyAt at self.old self.new }
    {
        let _told = self.hear(at, wire, b"", News::Failed);
    }

    /// Takes all sockets of both sides that no record has taken, those that are open as they are. The sides have none then. Err
    /// for want of memory changes nothing.
    pub fn take_loose(&mut self) -> Result<LooseList<SimEnd>, NoMemory>
        ensures taken { IfOk result (λ l. l.items ≡ untaken self.old.first ++ untaken self.old.second) }
        ensures ok { OnOk result (self.new ≡ without_halves self.old) }
        ensures err { OnErr result (self.new ≡ self.old) }
    {
        let mut loose = Items::empty(self.alloc);
        loose.reserve(self.untaken()?)?;
        self.first.leave_all(&mut loose);
        self.second.leave_all(&mut loose);
        Ok(loose)
    }

    /// How many sockets no record has taken. Err where that is no number.
    fn untaken(&self) -> Result<usize, NoMemory>
        ensures { IfOk result (λ n. n ≡ length (untaken self.now.first) + length (untaken self.now.second)) }
    {
        let first = self.first.count()?;
        let second = self.second.count()?;
        first.checked_add(second).ok_or(NoMemory)
    }

    /// Ends both records. How many bytes the throttle of each has granted that aren't back.
    pub fn finish(self) -> (u64, u64)
        ensures first { result.0 ≡ left_out self.first }
        ensures second { result.1 ≡ left_out self.second }
    {
        let Pair {
            alloc: _,
            first,
            second,
            wires: _,
        } = self;
        (first.finish(), second.finish())
    }
}

/// Opens a socket from one side to the other, where a connect is due.
fn open(
    from: &mut Side,
    to: &mut Side,
    wires: &mut Vec<Wire>,
    opener: Which,
    now: u64,
) -> Connecting
    ensures { ConnectsAs result opener (record { from = from.old; to = to.old; wires = wires.old.items }) (record { from = from.new; to = to.new; wires = wires.new.items }) }
{
    let Some(socket) = from.next_socket(now) else {
        return Connecting::NotDue;
    };
    if wires.reserve(1).is_err() || to.accept(socket).is_err() {
        return Connecting::NoMemory;
    }
    if from.connect(socket, now).is_err() {
        to.forget_last();
        return Connecting::NoMemory;
    }
    wires.push_reserved(Wire {
        socket,
        opener,
        ahead: 0,
        back: 0,
    });
    Connecting::Opened(socket)
}

/// Lets bytes flow from one side to the other, and tells of a close. How many have flowed then.
fn pass(from: &Side, to: &mut Side, socket: &SocketId, done: usize, most: usize) -> usize
    ensures from { done ≤ result }
    ensures most { result ≤ done + most }
{
    let Some(log) = from.log_at(socket) else {
        return done;
    };
    let is_open = match to.log_at(socket) {
        Some(other) => !other.closed,
        None => false,
    };
    if !is_open || log.put.len() < done {
        return done;
    }
    let (_, rest) = log.put.as_slice().split_at(done);
    let n = most.min(rest.len());
    let (next, _) = rest.split_at(n);
    if n > 0 && to.hear(socket, next, News::Flow).is_err() {
        return done;
    }
    if log.closed {
        tell_closing(to, socket, n == rest.len());
    }
    done + n
}

/// Tells an end that the other is closed, and where all was passed that nothing more will come.
fn tell_closing(to: &mut Side, socket: &SocketId, all: bool) {
    let _closed = to.hear(socket, b"", News::Closed);
    if all {
        let _ended = to.hear(socket, b"", News::Ended);
    }
}
