//! The door of a node: sockets that it accepts for all of its event threads.

ghost use Rattle.std.specs.Prelude.{◌≡◌, ◌+◌, ◌++◌, ◌<◌, ◌≤◌, [], false, IfOk, IsSome, List, OnOk, length, map, vec_capacity, vec_len};
ghost use Rattle.std.specs.VecDeque.{deque_capacity, deque_len};
ghost use Rattle.m2_handover.specs.Door.{Hands, HandsFirst, HaveCome, HaveShaken, KeepsAll, LetsAllIn, LetsIn, LetsOneIn, LetsTheNextIn, Shaken, Shakes, ShakesAll, ShakesFirst, StandBefore, Stands, TakesIn, WaitsAtDoor, unasked_in};
ghost use Rattle.m2_handover.specs.Handed.{IsAskedAs, left_behind};
ghost use Rattle.m2_handover.specs.declared.door.TheConstants.{MOST_AT_DOOR};
ghost use Rattle.m2_trail.specs.Arrivals.{left_of};
ghost use Rattle.m2_trail.specs.declared.incoming.TheConstants.{MOST_READ};

use crate::handed::Handed;
use crate::names::Inboxes;
use crate::way::Way;
use m2_bytes::{Items, NoMemory};
use m2_fabric::{End, EndLog, Port, Taken};
use m2_journal::EntryList;
use m2_trail::{
    Arrival, HalfTurn, Incoming, Loose, LooseList, MOST_READ, advance, turns_leave_the_half,
};
use std::alloc::Global;
use std::collections::VecDeque;
use std::marker::Model;
use std::sync::Wait;

/// How many sockets stand at a door at most, that weren't asked yet or whose home has no room. A further one is closed.
pub const MOST_AT_DOOR: usize = 64;

/// How many sockets are accepted in a turn at most.
const MOST_ACCEPTS: u32 = 4096;

/// How long its thread waits at most while an asked socket waits for room at its home, in milliseconds: nobody wakes it.
const ROOM_WAIT: u32 = 1;

/// What a turn of the door came to.
#[derive(Clone, Copy, Debug, PartialEq, Eq)]
pub(crate) enum DoorTurn {
    Done,
    /// An accept failed.
    Failed,
    NoMemory,
}

/// A half at a door, of which nothing was judged. Contracts see the half.
#[derive(Drop)]
struct AtDoor<E: End> {
    half: Incoming<E>,
    ghost unjudged: { half.trail.judged ≡ [] },
}

impl<E: End> Model for AtDoor<E> {
    ghost use Rattle.m2_trail.specs.Incoming.{IncomingNow};

    ghost Value = { IncomingNow };

    ghost view = { λ d. d.half };
}

/// The door of a node: it accepts, shakes hands until it is asked, and hands each socket over to the thread with which the
/// asking address is at home.
///
/// Contracts see the halves that weren't asked yet, the sockets that were and whose home has had no room, the halves that are
/// over, the ways, with what was put by each, and whether something is there to be done at once. No socket that came to it is
/// lost: each stays in one of these places.
#[derive(Drop)]
pub struct Door<E: End, B: Inboxes<E>> {
    alloc: Global,
    entity: u8,
    halves: VecDeque<AtDoor<E>>,
    asked: VecDeque<Handed<E>>,
    over: Vec<Loose<E>>,
    /// What halves read into.
    piece: Vec<u8>,
    ways: Vec<Way<E, B>>,
    /// Whether something is there to be done at once.
    busy: bool,
    ghost long: { length piece.items ≡ MOST_READ },
    ghost few: { deque_len halves + deque_len asked ≤ MOST_AT_DOOR },
    ghost room_of_halves: { MOST_AT_DOOR ≤ deque_capacity halves },
    ghost room_of_asked: { MOST_AT_DOOR ≤ deque_capacity asked },
}

impl<E: End, B: Inboxes<E>> Model for Door<E, B> {
    ghost use Rattle.m2_handover.specs.Door.{DoorNow};

    ghost Value = { DoorNow };

    ghost view = { λ d. record { halves = d.halves.items; asked = d.asked.items; over = d.over.items; ways = d.ways.items; busy = d.busy } };
}

impl<E: End, B: Inboxes<E>> Door<E, B> {
    /// A door of a node of this kind, to which nobody came yet, with the ways to its threads.
    pub fn new(alloc: Global, entity: u8, ways: Vec<Way<E, B>>) -> Result<Door<E, B>, NoMemory>
        ensures { IfOk result (λ d. d ≡ record { halves = []; asked = []; over = []; ways = ways.items; busy = false }) }
    {
        Ok(Door {
            alloc,
            entity,
            halves: VecDeque::with_capacity(alloc, MOST_AT_DOOR)?,
            asked: VecDeque::with_capacity(alloc, MOST_AT_DOOR)?,
            over: Vec::new(alloc),
            piece: Vec::from_elem(alloc, 0, MOST_READ)?,
            ways,
            busy: false,
        })
    }

    /// How long its thread may wait of so many milliseconds.
    pub(crate) fn patience(&self, most: u32) -> u32
        ensures { WaitsAtDoor self.now most result }
    {
        if self.busy {
            0
        } else if self.asked.is_empty() {
            most
        } else {
            most.min(ROOM_WAIT)
        }
    }

    /// A turn: each socket goes on, and then what waits at the port is accepted, so that an accept that fails hides no want of
    /// memory.
    #[tactic(auto, using(crate::proofs::Weights::keeps_then_takes, crate::proofs::Shaking::shakes_before))]
    pub(crate) fn turn<R: Wait, P: Port<End = E>>(
        &mut self,
        rt: &R,
        inboxes: &B,
        port: &mut P,
    ) -> DoorTurn
        ensures lets { LetsIn result (P.seen port.old) (P.seen port.new) }
        ensures all { LetsAllIn result (P.seen port.old) (P.seen port.new) }
        ensures shakes { Shakes result self.old self.new }
        ensures sockets { TakesIn (P.seen port.old).made (P.seen port.new).made self.old self.new }
    {
        self.busy = false;
        if self.go_on_all(rt, inboxes, port).is_err() {
            return DoorTurn::NoMemory;
        }
        self.accept_all(port)
    }

    /// What waits at the port is accepted.
    #[tactic(auto, using(crate::proofs::Doors::accepts_more, crate::proofs::Doors::lets_in_then, crate::proofs::Shaking::none_came, crate::proofs::Shaking::more_came, crate::proofs::Weights::takes_in_more))]
    fn accept_all<P: Port<End = E>>(&mut self, port: &mut P) -> DoorTurn
        ensures lets { LetsIn result (P.seen port.old) (P.seen port.new) }
        ensures all { LetsAllIn result (P.seen port.old) (P.seen port.new) }
        ensures came { HaveCome self.old self.new }
        ensures sockets { TakesIn (P.seen port.old).made (P.seen port.new).made self.old self.new }
    {
        'accepts: for _ in 0..MOST_ACCEPTS {
            if let Some(end) = self.accept(port) {
                return end;
            }
        }
        DoorTurn::Done
    }

    /// Accepts one socket, which goes on in the next turn. None: there was one.
    #[tactic(auto, using(crate::proofs::Doors::lets_none, crate::proofs::Doors::lets_made, crate::proofs::Doors::lets_nothing, crate::proofs::Doors::lets_failed, crate::proofs::Shaking::same_came, crate::proofs::Shaking::has_come, crate::proofs::Weights::comes_in, crate::proofs::Weights::takes_none))]
    fn accept<P: Port<End = E>>(&mut self, port: &mut P) -> Option<DoorTurn>
        ensures lets { LetsOneIn result (P.seen port.old) (P.seen port.new) }
        ensures next { LetsTheNextIn result (P.seen port.old) (P.seen port.new) }
        ensures came { HaveCome self.old self.new }
        ensures sockets { TakesIn (P.seen port.old).made (P.seen port.new).made self.old self.new }
    {
        let mut entries = EntryList::empty(self.alloc);
        if self.over.reserve(1).is_err() || entries.reserve(1).is_err() {
            return Some(DoorTurn::NoMemory);
        }
        match port.accept() {
            Taken::Made(end) => {
                let half = Incoming::begin(self.alloc, end, self.entity, entries);
                stand(&mut self.halves, self.asked.len(), &mut self.over, half);
                self.busy = true;
                None
            }
            Taken::NotYet => Some(DoorTurn::Done),
            Taken::Failed => Some(DoorTurn::Failed),
            Taken::NoMemory => Some(DoorTurn::NoMemory),
        }
    }

    /// Each socket goes on: halves shake hands, and those that were asked are handed over.
    #[tactic(auto, using(crate::proofs::Handing::begins_so, crate::proofs::Handing::goes_on_so, crate::proofs::Handing::hands_all, crate::proofs::Shaking::shakes_then, crate::proofs::Weights::keeps_same, crate::proofs::Weights::keeps_more))]
    fn go_on_all<R: Wait, P: Port<End = E>>(
        &mut self,
        rt: &R,
        inboxes: &B,
        port: &P,
    ) -> Result<(), NoMemory>
        ensures shakes { OnOk result (ShakesAll self.old self.new) }
        ensures sockets { KeepsAll self.old self.new }
    {
        self.shake_all(port)?;
        'asked: for _ in 0..self.asked.len() {
            self.hand_next(rt, inboxes, port);
        }
        Ok(())
    }

    /// Each half takes its turn, and is then where that leads.
    #[tactic(auto, using(crate::proofs::Shaking::goes_on_so, crate::proofs::Shaking::all_so, crate::proofs::Weights::keeps_same, crate::proofs::Weights::keeps_more))]
    fn shake_all<P: Port<End = E>>(&mut self, port: &P) -> Result<(), NoMemory>
        ensures shakes { OnOk result ((turned : List Shaken) × HaveShaken turned [] self.old self.new) }
        ensures sockets { KeepsAll self.old self.new }
    {
        'halves: for _ in 0..self.halves.len() {
            self.shake(port)?;
        }
        Ok(())
    }

    /// The half that comes next goes on, and is the last one then, unless it was asked or is over.
    #[tactic(auto, using(crate::proofs::Weights::keeps_same))]
    fn shake<P: Port<End = E>>(&mut self, port: &P) -> Result<(), NoMemory>
        ensures shakes { OnOk result (ShakesFirst self.old self.new) }
        ensures sockets { KeepsAll self.old self.new }
    {
        if self.over.reserve(1).is_err() {
            return Err(NoMemory);
        }
        let Some(AtDoor { mut half }) = self.halves.pop_front() else {
            return Ok(());
        };
        turns_leave_the_half();
        match advance(&mut half, self.piece.as_mut_slice()) {
            HalfTurn::Asked => self.asked.push_back_reserved(asked(port, half)),
            HalfTurn::Over => self.over.push_reserved(half.close()),
            HalfTurn::Waits => self.halves.push_back_reserved(AtDoor { half }),
            HalfTurn::Busy => {
                self.busy = true;
                self.halves.push_back_reserved(AtDoor { half });
            }
            HalfTurn::NoMemory => {
                self.halves.push_back_reserved(AtDoor { half });
                return Err(NoMemory);
            }
        }
        Ok(())
    }

    /// The asked socket that comes next is handed over, and its home is woken. It is the last one then where that has no room.
    #[tactic(auto, using(crate::proofs::Weights::keeps_same))]
    fn hand_next<R: Wait, P: Port<End = E>>(&mut self, rt: &R, inboxes: &B, port: &P)
        ensures halves { self.new.halves ≡ self.old.halves }
        ensures over { self.new.over ≡ self.old.over }
        ensures busy { self.new.busy ≡ self.old.busy }
        ensures hands { HandsFirst self.old self.new }
        ensures sockets { KeepsAll self.old self.new }
    {
        let Some(handed) = self.asked.pop_front() else {
            return;
        };
        match hand(&mut self.ways, rt, inboxes, handed) {
            None => port.ring(),
            Some(left) => self.asked.push_back_reserved(left),
        }
    }

    /// Whether nothing is to be done now: no asked socket waits, and each half waits for its peer.
    pub(crate) fn rests(&self) -> bool {
        self.asked.is_empty() && self.halves.iter().all(|at| waits(at.half.end().log()))
    }

    /// All halves that nobody went on with; and the ways. Err is want of memory.
    pub(crate) fn into_rest(self) -> Result<DoorRest<E, B>, NoMemory>
        ensures at_door { IfOk result (λ r. r.at_door.items ≡ unasked_in self) }
        ensures on_way { IfOk result (λ r. r.on_way.items ≡ map left_behind self.asked) }
        ensures ways { IfOk result (λ r. r.ways.items ≡ self.ways) }
    {
        let Door {
            alloc,
            entity: _,
            halves,
            asked,
            over: mut left,
            piece: _,
            ways,
            busy: _,
        } = self;
        leave_halves(halves, &mut left)?;
        let mut on_way = Vec::new(alloc);
        leave_asked(asked, &mut on_way)?;
        Ok(DoorRest {
            at_door: Items::from_vec(left),
            on_way: Items::from_vec(on_way),
            ways,
        })
    }
}

/// What is left of a door: the halves that weren't asked, those that are over first; those that were and whose homes have had no
/// room; and the ways.
#[derive(Drop)]
pub(crate) struct DoorRest<E: End, B: Inboxes<E>> {
    pub(crate) at_door: LooseList<E>,
    pub(crate) on_way: LooseList<E>,
    pub(crate) ways: Vec<Way<E, B>>,
}

impl<E: End, B: Inboxes<E>> DoorRest<E, B> {
    /// That of a port that has no door.
    pub(crate) fn none(alloc: Global) -> DoorRest<E, B>
        ensures at_door { result.at_door.items ≡ [] }
        ensures on_way { result.on_way.items ≡ [] }
        ensures ways { result.ways.items ≡ [] }
    {
        DoorRest {
            at_door: Items::empty(alloc),
            on_way: Items::empty(alloc),
            ways: Vec::new(alloc),
        }
    }
}

/// Whether a half waits for its peer, by what its end did last.
fn waits(log: &EndLog) -> bool {
    log.dry || log.blocked
}

/// A half stands among these from now on, or is closed where there are as many as there may be, with those that were asked.
#[tactic(auto, using(crate::proofs::Weights::stands_last, crate::proofs::Weights::is_over_last))]
fn stand<E: End>(
    halves: &mut VecDeque<AtDoor<E>>,
    asked: usize,
    over: &mut Vec<Loose<E>>,
    half: Incoming<E>,
)
    requires unjudged { half.trail.judged ≡ [] }
    requires few { deque_len halves.old + asked ≤ MOST_AT_DOOR }
    requires capacity { MOST_AT_DOOR ≤ deque_capacity halves.old }
    requires room { vec_len over.old < vec_capacity over.old }
    ensures few { deque_len halves.new + asked ≤ MOST_AT_DOOR }
    ensures capacity { MOST_AT_DOOR ≤ deque_capacity halves.new }
    ensures stands { Stands half.end.id (halves.old.items, over.old.items) (halves.new.items, over.new.items) }
    ensures before { StandBefore halves.old.items halves.new.items }
    ensures over { StandBefore over.old.items over.new.items }
    ensures spared { length halves.old.items + asked < MOST_AT_DOOR → over.new.items ≡ over.old.items }
{
    if halves.len() + asked < MOST_AT_DOOR {
        halves.push_back_reserved(AtDoor { half });
    } else {
        over.push_reserved(half.close());
    }
}

/// A socket whose half was asked, with the address of that ask. The port waits for it no more.
fn asked<P: Port>(port: &P, half: Incoming<P::End>) -> Handed<P::End>
    requires asked { IsSome half.ask }
    requires unjudged { half.trail.judged ≡ [] }
    ensures { IsAskedAs half result }
{
    let mut handed = Handed::of(Arrival::of(half));
    port.leave(&mut handed.end);
    handed
}

/// Hands a socket over by the first way that takes it. It comes back where each refuses it.
#[tactic(auto, using(crate::proofs::Handing::refused_more, crate::proofs::Handing::refused_all))]
fn hand<E: End, R: Wait, B: Inboxes<E>>(
    ways: &mut Vec<Way<E, B>>,
    rt: &R,
    inboxes: &B,
    handed: Handed<E>,
) -> Option<Handed<E>>
    ensures { Hands result handed ways.old.items ways.new.items }
{
    let mut left = handed;
    'ways: for k in 0..ways.len() {
        match ways[k].hand(rt, inboxes, left) {
            Ok(()) => return None,
            Err(back) => left = back,
        }
    }
    Some(left)
}

/// Leaves halves as they are, in order, behind these.
fn leave_halves<E: End>(
    mut halves: VecDeque<AtDoor<E>>,
    left: &mut Vec<Loose<E>>,
) -> Result<(), NoMemory>
    ensures { OnOk result (left.new.items ≡ left.old.items ++ map left_of halves.items) }
{
    'halves: while let Some(AtDoor { half }) = halves.pop_front() {
        left.push(half.leave())?;
    }
    Ok(())
}

/// The same of halves that were asked.
fn leave_asked<E: End>(
    mut asked: VecDeque<Handed<E>>,
    left: &mut Vec<Loose<E>>,
) -> Result<(), NoMemory>
    ensures { OnOk result (left.new.items ≡ left.old.items ++ map left_behind asked.items) }
{
    'asked: while let Some(handed) = asked.pop_front() {
        left.push(handed.into_loose())?;
    }
    Ok(())
}
