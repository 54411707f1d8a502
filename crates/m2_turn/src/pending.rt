//! Sockets of peers that no record took, in the order of acceptance.

ghost use Rattle.std.specs.Prelude.{◌≡◌, ◌<◌, ◌≤◌, [], ◌∷◌, ◌++◌, length, map, IfOk, IfSome, MatchOption, OnErr, OnOk};
ghost use Rattle.std.specs.List.{All, AllByRecursion, list_any};
ghost use Rattle.std.specs.Option.{option_map};
ghost use Rattle.slab.specs.Slab.{ContainsKey, get};
ghost use Rattle.m2_fabric.specs.End.{SeenEnd};
ghost use Rattle.m2_fabric.specs.Log.{log_of};
ghost use Rattle.m2_record.specs.Sources.{end_at};
ghost use Rattle.m2_turn.specs.Busy.{is_busy};
ghost use Rattle.m2_turn.specs.Halves.{IsWholeHere};
ghost use Rattle.m2_turn.specs.Hearing.{IsHalfInMemory, first_told, is_on, pending_told};
ghost use Rattle.m2_turn.specs.Pending.{IsToldAt, first_key, is_found};
ghost use Rattle.m2_turn.specs.Sessions.{PendingNow};

use m2_addr::Addr;
use m2_bytes::NoMemory;
use m2_fabric::{End, EndLog, MemoryEnd, News, SocketId};
use m2_trail::Incoming;
use slab::Slab;
use std::alloc::Global;
use std::collections::VecDeque;
use std::marker::Model;

/// How many halves a center has at most.
pub const MOST_HALVES: usize = 64;

/// A socket of a peer that no record took, with its half; and whose its first ask was, once it had one.
#[derive(Drop)]
pub struct Pending<E: End> {
    pub half: Incoming<E>,
    pub asker: Option<Addr>,
}

impl<E: End> Model for Pending<E> {
    ghost use Rattle.m2_turn.specs.Sessions.{PendingNow};

    ghost Value = { PendingNow };

    ghost view = { λ p. record { half = p.half; asker = p.asker } };
}

/// Halves in the order of their acceptance, as contracts see them. Each stays in its place of a slab until
/// it goes; the order of their places stands beside it.
///
/// Maker: [`new`](Pendings::new), which makes the room of all. Looks: [`len`](Pendings::len),
/// [`any_busy`](Pendings::any_busy), [`has`](Pendings::has), [`log`](Pendings::log); what each half keeps says
/// [`are_whole`](Pendings::are_whole). In: [`push`](Pendings::push). Out: [`pop`](Pendings::pop).
/// [`hear`](Pendings::hear) is for the driver of ends in memory.
#[derive(Drop)]
pub struct Pendings<E: End> {
    slots: Slab<Pending<E>>,
    order: VecDeque<usize>,
}

impl<E: End> Model for Pendings<E> {
    ghost use Rattle.std.specs.Prelude.{◌≤◌, List};
    ghost use Rattle.std.specs.VecDeque.{deque_capacity};
    ghost use Rattle.m2_turn.specs.Pending.{IsOrderOf, in_order};
    ghost use Rattle.m2_turn.specs.Sessions.{PendingNow};
    ghost use Rattle.m2_turn.specs.declared.pending.TheConstants.{MOST_HALVES};

    ghost Value = { List PendingNow };

    ghost view = { λ p. in_order p.slots p.order.items };

    ghost invariant = { λ p. IsOrderOf p.slots MOST_HALVES p.order.items × (MOST_HALVES ≤ deque_capacity p.order) };
}

impl<E: End> Pendings<E> {
    /// No half, and the room of [`MOST_HALVES`].
    pub fn new(alloc: Global) -> Result<Pendings<E>, NoMemory>
        ensures { IfOk result (λ halves. halves ≡ []) }
    {
        let slots = Slab::with_capacity(alloc, MOST_HALVES)?;
        let mut order = VecDeque::new(alloc);
        order.reserve(MOST_HALVES)?;
        Ok(Pendings { slots, order })
    }

    /// How many halves there are, at most [`MOST_HALVES`].
    pub fn len(&self) -> usize
        ensures length { result ≡ length self.now }
        ensures few { result ≤ MOST_HALVES }
    {
        self.order.len()
    }

    /// A half goes last. Takes no memory.
    pub fn push(&mut self, pending: Pending<E>)
        requires { length self.old < MOST_HALVES }
        ensures { self.new ≡ self.old ++ pending ∷ [] }
    {
        let key = self.slots.insert_reserved(pending);
        self.order.push_back_reserved(key);
    }

    /// The oldest half goes; none exactly where there is none.
    pub fn pop(&mut self) -> Option<Pending<E>>
        ensures { MatchOption result ((self.old ≡ []) × (self.new ≡ [])) (λ oldest. self.old ≡ oldest ∷ self.new) }
    {
        let key = self.order.pop_front()?;
        Some(self.slots.remove(key))
    }
}

impl<E: End> Pendings<E> {
    /// Whether one of the halves has something to do, or may have: its end isn't blocked, and it has something in
    /// hand, or its end may have something to be read.
    pub fn any_busy(&self) -> bool
        ensures { result ≡ list_any is_busy self.now }
    {
        first_busy(&self.slots, &self.order).is_some()
    }

    /// That the trail of each half tells all that its end did, for contracts alone.
    pub fn are_whole(&self)
        ensures { AllByRecursion IsWholeHere self.now }
    {
        each_is_whole(&self.slots, &self.order);
    }

    /// Whether there is a half on that socket.
    pub fn has(&self, id: &SocketId) -> bool
        ensures { result ≡ list_any (is_on id.now) self.now }
    {
        key_of(&self.slots, &self.order, id).is_some()
    }

    /// What the end of that socket did; none exactly where there is no half on it.
    pub fn log(&self, id: &SocketId) -> Option<&EndLog>
        ensures { option_map (λ log. log_of log.now) result ≡ option_map (λ (e : SeenEnd). e.log) (end_at (map (λ (p : PendingNow). p.half.end) self.now) id.now) }
    {
        match key_of(&self.slots, &self.order, id) {
            Some(key) => log_at(&self.slots, key),
            None => None,
        }
    }

    /// Tells the end of the first half on that socket, where there is one, of the other side.
    pub fn hear(&mut self, id: &SocketId, bytes: &[u8], news: News) -> Result<(), NoMemory>
        ensures ok { OnOk result (self.new ≡ first_told (is_on id.now) (pending_told news bytes.now) self.old) }
        ensures err { OnErr result (self.new ≡ self.old) }
    {
        match key_of(&self.slots, &self.order, id) {
            Some(key) => hear_at(&mut self.slots, key, bytes, news),
            None => Ok(()),
        }
    }
}

impl<E: MemoryEnd> Pendings<E> {
    /// That the end of each half is in memory, for contracts alone.
    pub fn are_in_memory(&self)
        ensures { AllByRecursion IsHalfInMemory self.now }
    {
        each_in_memory(&self.slots, &self.order);
    }
}

/// That the end of the half at each place is in memory, for contracts alone.
fn each_in_memory<E: MemoryEnd>(slots: &Slab<Pending<E>>, order: &VecDeque<usize>)
    ensures { All (λ key. IfSome (get slots.now key) IsHalfInMemory) order.now.items }
{
    'places: for place in 0..order.len() {
        let key = order[place];
        in_memory_at(slots, key);
    }
}

/// That the end of the half at a place is in memory, for contracts alone.
fn in_memory_at<E: MemoryEnd>(slots: &Slab<Pending<E>>, key: usize)
    ensures { IfSome (get slots.now key) IsHalfInMemory }
{
    if let Some(pending) = slots.get(key) {
        pending.half.end().is_in_memory();
    }
}

/// That the trail of the half at each place is whole, for contracts alone.
fn each_is_whole<E: End>(slots: &Slab<Pending<E>>, order: &VecDeque<usize>)
    ensures { All (λ key. IfSome (get slots.now key) IsWholeHere) order.now.items }
{
    'places: for place in 0..order.len() {
        let key = order[place];
        is_whole_at(slots, key);
    }
}

/// That the trail of the half at a place is whole, for contracts alone.
fn is_whole_at<E: End>(slots: &Slab<Pending<E>>, key: usize)
    ensures { IfSome (get slots.now key) IsWholeHere }
{
    if let Some(pending) = slots.get(key) {
        pending.half.is_whole();
    }
}

/// The place of the first half that is busy.
fn first_busy<E: End>(slots: &Slab<Pending<E>>, order: &VecDeque<usize>) -> Option<usize>
    ensures { result ≡ first_key is_busy slots.now order.now.items }
{
    'places: for place in 0..order.len() {
        let key = order[place];
        if is_busy_at(slots, key) {
            return Some(key);
        }
    }
    None
}

/// Whether the half at a place is busy.
fn is_busy_at<E: End>(slots: &Slab<Pending<E>>, key: usize) -> bool
    ensures { result ≡ is_found is_busy (get slots.now key) }
{
    match slots.get(key) {
        Some(pending) => is_busy(pending),
        None => false,
    }
}

/// Whether a half has something in hand, or may have something to be read, and its last write wasn't answered that it
/// can't yet.
fn is_busy<E: End>(pending: &Pending<E>) -> bool
    ensures { result ≡ is_busy pending.now }
{
    let half = &pending.half;
    let log = half.end().log();
    !log.blocked && (half.has_text() || half.ask().is_some() || !half.rests() || !log.dry)
}

/// The place of the first half on that socket.
fn key_of<E: End>(slots: &Slab<Pending<E>>, order: &VecDeque<usize>, id: &SocketId) -> Option<usize>
    ensures { result ≡ first_key (is_on id.now) slots.now order.now.items }
{
    'places: for place in 0..order.len() {
        let key = order[place];
        if is_at(slots, key, id) {
            return Some(key);
        }
    }
    None
}

/// Whether the half at a place is on that socket.
fn is_at<E: End>(slots: &Slab<Pending<E>>, key: usize, id: &SocketId) -> bool
    ensures { result ≡ is_found (is_on id.now) (get slots.now key) }
{
    match slots.get(key) {
        Some(pending) => id.is_same(&pending.half.id()),
        None => false,
    }
}

/// What the end of the half at a place did.
fn log_at<E: End>(slots: &Slab<Pending<E>>, key: usize) -> Option<&EndLog>
    ensures { option_map (λ log. log_of log.now) result ≡ option_map (λ (p : PendingNow). p.half.end.log) (get slots.now key) }
{
    match slots.get(key) {
        Some(pending) => Some(pending.half.end().log()),
        None => None,
    }
}

/// Tells the end of the half at a place of the other side.
fn hear_at<E: End>(
    slots: &mut Slab<Pending<E>>,
    key: usize,
    bytes: &[u8],
    news: News,
) -> Result<(), NoMemory>
    requires { ContainsKey slots.old key }
    ensures ok { OnOk result (IsToldAt slots.old slots.new key (pending_told news bytes.now)) }
    ensures err { OnErr result (slots.new ≡ slots.old) }
{
    match slots.get_mut(key) {
        Some(pending) => pending.half.hear(bytes, news),
        None => Ok(()),
    }
}
