//! The port of an event thread of a node that has several.

ghost use Rattle.std.specs.Prelude.{◌≡◌, ◌<◌, ◌∷◌, length, slice_get, ◌==◌, ◌&&◌, [], ◌++◌, None, Some, false, option_map, IfNone, IfOk, IfSome};
ghost use Rattle.m2_fabric.specs.Port.{Accepts, Connects, connect_map, taken_map};
ghost use Rattle.m2_handover.specs.Door.{LetsAllIn, LetsIn, StaysThere, TakesIn};
ghost use Rattle.m2_handover.specs.Handed.{IsOfNamed, OnItsWay};
ghost use Rattle.m2_handover.specs.Home.{AreAllThere, GivesOrLacks, HasTakenAll, IsBalanced, IsSameButInner, IsSameInside, ShakesAtDoor, TakesOver, WaitsHere, asked_at, fresh_behind, fresh_if_taken, shown, unasked_at, ways_at};
ghost use Rattle.m2_mailbox.specs.Passes.{IsGetPassOf, looks_of, next_look, taken_of};
ghost use Rattle.m2_mailbox.specs.declared.inbox.Inbox.{Inbox};
ghost use Rattle.m2_trail.specs.declared.home.HomeOf.{HomeOf};

use crate::door::{Door, DoorRest, DoorTurn};
use crate::end::HandedEnd;
use crate::handed::Handed;
use crate::names::Inboxes;
use crate::way::Way;
use m2_addr::Addr;
use m2_bytes::{Items, NoMemory};
use m2_edge::Failed;
use m2_fabric::{Connect, End, News, Port, SocketId, SocketIdList, Taken, is_among};
use m2_mailbox::GetPass;
use m2_trail::LooseList;
use std::alloc::Global;
use std::marker::Model;
use std::sync::Wait;
use std::sync::atomic::{AtomicBool, Ordering};

/// The port of an event thread of a node. What it connects to is its own; what it accepts are the sockets that were handed
/// over to it, since the asking address is at home with this thread. The first thread's port has the node's door besides,
/// through which all sockets come. It doesn't connect to the node's own address.
///
/// A poll looks into the inbox first, and doesn't wait where something is there; nor where a socket was accepted since the
/// last one, since there is something to be read again, or where the door can go on at once. While an asked socket waits at
/// the door for room it waits a millisecond at most.
///
/// Contracts see the port inside, the sockets that this one has made, whether its last accept found none, what was taken out
/// of the inbox and how often something was looked for there, whether one was accepted since the last poll, and the door; and that each socket that the port inside made, or that was taken, is in one place of these.
#[derive(Drop)]
pub struct HomePort<'a, P: Port, R: Wait + Copy, B: Inboxes<P::End>> {
    rt: R,
    alloc: Global,
    at: Addr,
    port: P,
    made: SocketIdList,
    quiet: bool,
    number: u32,
    inboxes: B,
    pass: GetPass<Handed<P::End>>,
    /// What was taken out of the inbox and isn't accepted yet.
    next: Option<Handed<P::End>>,
    /// Whether a socket was accepted since the last poll.
    fresh: bool,
    door: Option<Door<P::End, B>>,
    /// Where it tells whether nothing is there to be done but what its center knows of.
    rests: &'a AtomicBool,
    ghost here: { at ≡ (P.seen port).at },
    ghost named: { number < length B.inboxes },
    ghost ours: { (inbox : Inbox OnItsWay HomeOf) → slice_get B.inboxes number ≡ Some inbox → IsGetPassOf inbox pass },
}

impl<'a, P: Port, R: Wait + Copy, B: Inboxes<P::End>> Model for HomePort<'a, P, R, B> {
    ghost use Rattle.m2_handover.specs.Home.{HomeNow, IsHome};
    ghost use Rattle.m2_mailbox.specs.Passes.{looks_of, taken_of};

    ghost Value = { HomeNow };

    ghost view = { λ p. record {
      inner = P.seen p.port;
      made = p.made.items;
      room = p.made.room;
      quiet = p.quiet;
      taken = taken_of p.pass;
      looks = looks_of p.pass;
      next = p.next;
      fresh = p.fresh;
      door = p.door;
    } };

    ghost invariant = { λ p. IsHome (record {
      inner = P.seen p.port;
      made = p.made.items;
      room = p.made.room;
      quiet = p.quiet;
      taken = taken_of p.pass;
      looks = looks_of p.pass;
      next = p.next;
      fresh = p.fresh;
      door = p.door;
    }) };
}

/// What is left of the port of an event thread: the port inside, and the sockets that this one made; the halves that no thread
/// of the node went on with, those at its door that weren't asked, and those that were and didn't come to their homes, with the
/// last one of its inbox; the number of its thread, and the right to take out of its inbox, with what was taken; and the ways
/// of its door.
#[derive(Drop)]
pub struct HomeRest<P: Port, B: Inboxes<P::End>> {
    pub port: P,
    pub made: SocketIdList,
    pub at_door: LooseList<P::End>,
    pub on_way: LooseList<P::End>,
    pub number: u32,
    pub pass: GetPass<Handed<P::End>>,
    pub ways: Vec<Way<P::End, B>>,
}

impl<'a, P: Port, R: Wait + Copy, B: Inboxes<P::End>> HomePort<'a, P, R, B> {
    /// A port that has made nothing, over one of the node at this address that has made nothing either, but for what is at
    /// the door or went through it. Each time it finds nothing to accept it tells by `rests` whether each socket at its door has
    /// come to rest, and it takes that back where something lies in its inbox. No clause says anything of that.
    #[tactic(auto, using(crate::proofs::Named::of_named, crate::proofs::Named::named_within))]
    pub fn new(
        rt: R,
        alloc: Global,
        at: Addr,
        port: P,
        number: u32,
        inboxes: B,
        pass: GetPass<Handed<P::End>>,
        door: Option<Door<P::End, B>>,
        rests: &'a AtomicBool,
    ) -> HomePort<'a, P, R, B>
        requires here { at ≡ (P.seen port).at }
        requires ours { IsOfNamed (λ inbox. IsGetPassOf inbox pass) (slice_get B.inboxes number) }
        requires balanced { IsBalanced (record { inner = P.seen port; made = []; room = 0; quiet = false; taken = taken_of pass; looks = looks_of pass; next = None; fresh = false; door = door }) }
        ensures { result ≡ record { inner = P.seen port; made = []; room = result.room; quiet = false; taken = taken_of pass; looks = looks_of pass; next = None; fresh = false; door = door } }
    {
        HomePort {
            rt,
            alloc,
            at,
            port,
            made: Items::empty(alloc),
            quiet: false,
            number,
            inboxes,
            pass,
            next: None,
            fresh: false,
            door,
            rests,
        }
    }

    /// That each socket is in one place, for contracts alone.
    pub fn is_balanced(&self)
        ensures { IsBalanced self.now }
    {
        let _ = &self.port;
    }

    /// Takes it apart. Err is want of memory.
    pub fn into_rest(self) -> Result<HomeRest<P, B>, NoMemory>
        ensures port { IfOk result (λ r. P.seen r.port ≡ self.entry.inner) }
        ensures made { IfOk result (λ r. r.made.items ≡ self.entry.made) }
        ensures at_door { IfOk result (λ r. r.at_door.items ≡ unasked_at self.entry) }
        ensures on_way { IfOk result (λ r. r.on_way.items ≡ asked_at self.entry) }
        ensures taken { IfOk result (λ r. taken_of r.pass ≡ self.entry.taken) }
        ensures ours { IfOk result (λ r. IsOfNamed (λ inbox. IsGetPassOf inbox r.pass) (slice_get B.inboxes r.number)) }
        ensures ways { IfOk result (λ r. r.ways.items ≡ ways_at self.entry.door) }
        ensures all { IfOk result (λ r. AreAllThere self.entry (r.at_door.items ++ r.on_way.items)) }
    {
        let HomePort {
            rt: _,
            alloc,
            at: _,
            port,
            made,
            quiet: _,
            number,
            inboxes: _,
            pass,
            next,
            fresh: _,
            door,
            rests: _,
        } = self;
        let DoorRest {
            at_door,
            mut on_way,
            ways,
        } = match door {
            Some(door) => door.into_rest()?,
            None => DoorRest::none(alloc),
        };
        if let Some(handed) = next {
            if on_way.push(handed.into_loose()).is_err() {
                return Err(NoMemory);
            }
        }
        Ok(HomeRest {
            port,
            made,
            at_door,
            on_way,
            number,
            pass,
            ways,
        })
    }

    /// What waits at the node's door is let in, where this thread has it.
    #[tactic(auto, using(crate::proofs::Homes::home_same))]
    fn let_in(&mut self) -> DoorTurn
        ensures lets { LetsIn result self.old.inner self.new.inner }
        ensures all { IfSome self.old.door (λ d. LetsAllIn result self.old.inner self.new.inner) }
        ensures shakes { ShakesAtDoor result self.old.door self.new.door }
        ensures same { IsSameButInner self.old self.new }
    {
        match &mut self.door {
            Some(door) => door.turn(&self.rt, &self.inboxes, &mut self.port),
            None => DoorTurn::Done,
        }
    }

    /// Takes the next socket out of the inbox, unless there is one that isn't accepted yet.
    #[tactic(auto, using(crate::proofs::Homes::home_looks, crate::proofs::Homes::home_same))]
    fn look(&mut self)
        ensures shown { shown self.new ≡ shown self.old }
        ensures room { self.new.room ≡ self.old.room }
        ensures looked { IfNone self.new.next (self.new.looks ≡ next_look self.old.looks) }
        ensures fresh { self.new.fresh ≡ self.old.fresh }
        ensures inside { IsSameInside self.old self.new }
    {
        if self.next.is_none() {
            self.next = take_from(&self.rt, &self.inboxes, self.number, &mut self.pass);
        }
        if self.next.is_some() {
            self.rests.store(false, Ordering::SeqCst);
        }
    }

    /// The next socket that was handed over, where there is one. It stays the next one where memory runs out, and where it
    /// doesn't go to this node or is here already, which never comes.
    #[tactic(auto, using(crate::proofs::Homes::home_accepts, crate::proofs::Homes::home_same))]
    fn take(&mut self) -> Option<Taken<HandedEnd<P::End>>>
        requires { 0 < self.old.room }
        ensures takes { TakesOver (option_map (taken_map ⟦<HandedEnd<P::End> as End>⟧.seen) result) self.old self.new }
        ensures room { IfNone result (self.new.room ≡ self.old.room) }
        ensures none { IfNone result (self.new.next ≡ None) }
        ensures looked { IfNone result (self.new.looks ≡ next_look self.old.looks) }
        ensures some { IfSome result GivesOrLacks }
        ensures fresh { self.new.fresh ≡ fresh_if_taken result self.old.fresh }
        ensures inside { IsSameInside self.old self.new }
    {
        self.look();
        let handed = self.next.take()?;
        let id = handed.id();
        if !id.goes_to(&self.at) || is_among(&id, self.made.as_slice()) {
            self.next = Some(handed);
            return Some(Taken::NoMemory);
        }
        match handed.begin_again(self.alloc) {
            Err(handed) => {
                self.next = Some(handed);
                Some(Taken::NoMemory)
            }
            Ok(mut end) => {
                self.made.push_reserved(id);
                self.quiet = false;
                self.fresh = true;
                self.port.join(&mut end.end);
                Some(Taken::Made(end))
            }
        }
    }

    /// Whether this is the node's own address.
    fn is_own(&self, to: &Addr) -> bool
        ensures { result ≡ (to.now.ip == self.now.inner.at.ip) && (to.now.port == self.now.inner.at.port) }
    {
        to.ip == self.at.ip && to.port == self.at.port
    }

    /// Tells that nothing was accepted, and whether nothing is there to be done at the door.
    fn tell_rest(&self) {
        let rests = match &self.door {
            Some(door) => door.rests(),
            None => true,
        };
        self.rests.store(rests, Ordering::SeqCst);
    }

    /// How long it may wait of so many milliseconds.
    fn patience(&mut self, most: u32) -> u32
        ensures shown { shown self.new ≡ shown self.old }
        ensures waits { WaitsHere self.old self.new most result }
    {
        self.look();
        let fresh = self.fresh;
        self.fresh = false;
        match &self.door {
            _ if fresh || self.next.is_some() => 0,
            Some(door) => door.patience(most),
            None => most,
        }
    }
}

impl<'a, P: Port, R: Wait + Copy, B: Inboxes<P::End>> Port for HomePort<'a, P, R, B> {
    type End = HandedEnd<P::End>;

    ghost seen = { shown };

    fn made(&self) -> &SocketIdList {
        &self.made
    }

    fn missed(&self) -> u64 {
        self.port.missed()
    }

    fn refused(&self) -> u64 {
        self.port.refused()
    }

    fn quiet(&self) -> bool {
        self.quiet
    }

    #[tactic(auto, using(crate::proofs::Homes::home_same))]
    fn connect(&mut self, to: &Addr) -> Connect<HandedEnd<P::End>>
        ensures { Connects (connect_map ⟦<HandedEnd<P::End> as End>⟧.seen result) to.now (shown self.old) (shown self.new) }
    {
        if self.is_own(to) || self.made.reserve(1).is_err() {
            return Connect::NoMemory;
        }
        match self.port.connect(to) {
            Connect::Made(end) => {
                self.made.push_reserved(end.id());
                Connect::Made(HandedEnd::own(end))
            }
            Connect::Failed => Connect::Failed,
            Connect::NoMemory => Connect::NoMemory,
        }
    }

    #[tactic(auto, using(crate::proofs::Homes::taken_all))]
    fn accept(&mut self) -> Taken<HandedEnd<P::End>>
        ensures accepts { Accepts (taken_map ⟦<HandedEnd<P::End> as End>⟧.seen result) (shown self.old) (shown self.new) }
        ensures all { HasTakenAll result self.old self.new }
        ensures fresh { self.new.fresh ≡ fresh_behind result self.old.fresh }
    {
        if self.made.reserve(1).is_err() {
            return Taken::NoMemory;
        }
        if let Some(taken) = self.take() {
            return taken;
        }
        match self.let_in() {
            DoorTurn::Done => {}
            DoorTurn::Failed => {
                self.quiet = true;
                self.tell_rest();
                return Taken::Failed;
            }
            DoorTurn::NoMemory => return Taken::NoMemory,
        }
        if let Some(taken) = self.take() {
            return taken;
        }
        self.quiet = true;
        self.tell_rest();
        Taken::NotYet
    }

    fn poll(&mut self, most: u32) -> Result<(), Failed> {
        let most = self.patience(most);
        self.port.poll(most)
    }

    fn leave(&self, end: &mut HandedEnd<P::End>)
        ensures { ⟦<HandedEnd<P::End> as End>⟧.seen end.new ≡ ⟦<HandedEnd<P::End> as End>⟧.seen end.old }
    {
        self.port.leave(&mut end.end);
    }

    fn join(&self, end: &mut HandedEnd<P::End>)
        ensures { ⟦<HandedEnd<P::End> as End>⟧.seen end.new ≡ ⟦<HandedEnd<P::End> as End>⟧.seen end.old }
    {
        self.port.join(&mut end.end);
    }

    fn ring(&self) {
        self.port.ring();
    }

    fn incoming(&mut self, _id: SocketId) -> Result<(), NoMemory> {
        let _ = &self.made;
        Ok(())
    }

    fn hear(&mut self, _id: &SocketId, _bytes: &[u8], _news: News) -> Result<(), NoMemory> {
        let _ = &self.made;
        Ok(())
    }
}

/// What comes next out of the inbox of the thread with this number, where something does.
fn take_from<E: End, R: Wait, B: Inboxes<E>>(
    rt: &R,
    inboxes: &B,
    number: u32,
    pass: &mut GetPass<Handed<E>>,
) -> Option<Handed<E>>
    requires { (inbox : Inbox OnItsWay HomeOf) → slice_get B.inboxes number ≡ Some inbox → IsGetPassOf inbox pass.old }
    ensures ours { (inbox : Inbox OnItsWay HomeOf) → slice_get B.inboxes number ≡ Some inbox → IsGetPassOf inbox pass.new }
    ensures some { IfSome result (λ handed. taken_of pass.new ≡ taken_of pass.old ++ handed ∷ []) }
    ensures none { IfNone result (taken_of pass.new ≡ taken_of pass.old) }
    ensures looked { number < length B.inboxes → looks_of pass.new ≡ next_look (looks_of pass.old) }
{
    match inboxes.inbox(number) {
        Some(inbox) => inbox.take(rt, pass),
        None => None,
    }
}
