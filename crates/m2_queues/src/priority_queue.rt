//! The queue.

ghost use Rattle.std.specs.Prelude.{◌≡◌, ◌==◌, ◌-◌, ◌<◌, ◌≤◌, [], length, drop, max, IsOk, OnOk, OnErr, MatchResult};
ghost use Rattle.std.specs.Option.{option_copied};
ghost use Rattle.m2_queues.specs.PriorityQueue.{joined, first_item, first_rank};
ghost use Rattle.m2_queues.specs.PriorityQueueFields.{goes_before_others, rank_for};

use crate::stable_heap::StableHeap;
use m2_bytes::NoMemory;
use std::alloc::Global;
use std::collections::VecDeque;
use std::marker::Model;

/// Items, each with a rank that was given with it: the greatest rank comes out first, and inside a
/// rank the item that went in first. Contracts see them in this order, with the room that is
/// promised. Items may be linear: no call but [`clear`](PriorityQueue::clear) drops one.
///
/// Making room: [`reserve`](PriorityQueue::reserve). In: [`push`](PriorityQueue::push). Out:
/// [`pop`](PriorityQueue::pop). Looks: [`first`](PriorityQueue::first), [`len`](PriorityQueue::len),
/// [`is_empty`](PriorityQueue::is_empty), [`room`](PriorityQueue::room). Ends:
/// [`clear`](PriorityQueue::clear), [`destroy_empty`](PriorityQueue::destroy_empty). Only `reserve`
/// and `push` take memory.
#[derive(Drop)]
pub struct PriorityQueue<T> {
    /// The items of one rank, that of the first item that went into an empty queue: they take no place in
    /// the heap, and mostly there are no others.
    lane: VecDeque<T>,
    lane_rank: u64,
    others: StableHeap<T>,
    len: usize,
    room: u32,
}

impl<T> Model for PriorityQueue<T> {
    ghost use Rattle.m2_queues.specs.PriorityQueue.{Line};
    ghost use Rattle.m2_queues.specs.PriorityQueueFields.{line_of, IsLine};

    ghost Value = { Line T };

    ghost view = { line_of };

    ghost invariant = { IsLine };
}

/// Whether the lane's first item comes out next, or no item does.
pub(crate) fn is_lane_next<T>(is_empty: bool, rank: u64, others: &StableHeap<T>) -> bool
    ensures { result ≡ goes_before_others rank is_empty (first_rank others.now.items) }
{
    match others.first_rank() {
        None => true,
        Some(other) => !is_empty && other < rank,
    }
}

/// The rank of the lane of a queue of `len` items, where an item of this rank is to go in.
pub(crate) fn lane_rank_for(len: usize, lane_rank: u64, rank: u64) -> u64
    ensures { result ≡ rank_for len lane_rank rank }
{
    if len == 0 { rank } else { lane_rank }
}

impl<T> PriorityQueue<T> {
    /// No items. Takes no memory.
    pub fn empty(alloc: Global) -> PriorityQueue<T>
        ensures { result ≡ record { items = []; room = 0 } }
    {
        PriorityQueue {
            lane: VecDeque::new(alloc),
            lane_rank: 0,
            others: StableHeap::empty(alloc),
            len: 0,
            room: 0,
        }
    }

    pub fn len(&self) -> usize
        ensures { result ≡ length self.now.items }
    {
        self.len
    }

    pub fn is_empty(&self) -> bool
        ensures { result ≡ (length self.now.items == 0) }
    {
        self.len == 0
    }

    /// How many pushes succeed whatever memory there is.
    pub fn room(&self) -> u32
        ensures { result ≡ self.now.room }
    {
        self.room
    }

    /// Makes the room at least `n`. Err comes for want of memory, or where so many items more, or so many
    /// pushes more, couldn't be counted.
    pub fn reserve(&mut self, n: u32) -> Result<(), NoMemory>
        ensures ok { OnOk result (self.new ≡ record self.old { room = max self.old.room n }) }
        ensures err { OnErr result (self.new ≡ self.old) }
        ensures succeeds { n ≤ self.old.room → IsOk result }
    {
        if n <= self.room {
            return Ok(());
        }
        if usize::MAX - self.len < n as usize {
            return Err(NoMemory);
        }
        self.lane.reserve(n as usize)?;
        self.others.reserve(n)?;
        self.room = n;
        Ok(())
    }

    /// Puts an item behind all of its rank or a greater one, and lowers the room by one where there
    /// is some. Where there is none, Err hands the item back as [`reserve`](PriorityQueue::reserve)
    /// says.
    pub fn push(&mut self, rank: u64, item: T) -> Result<(), T>
        ensures ok { OnOk result (self.new ≡ record { items = joined rank item self.old.items; room = self.old.room - 1 }) }
        ensures err { MatchResult result (λ _. Unit {0}) (λ back. (back ≡ item) × (self.new ≡ self.old)) }
        ensures succeeds { 0 < self.old.room → IsOk result }
    {
        if self.room == 0 && self.reserve(1).is_err() {
            return Err(item);
        }
        self.push_reserved(rank, item);
        Ok(())
    }

    /// Puts an item into the room that is there for it, behind all of its rank or a greater one.
    pub fn push_reserved(&mut self, rank: u64, item: T)
        requires { 0 < self.old.room }
        ensures { self.new ≡ record { items = joined rank item self.old.items; room = self.old.room - 1 } }
    {
        self.lane_rank = lane_rank_for(self.len, self.lane_rank, rank);
        self.len += 1;
        self.room -= 1;
        if rank != self.lane_rank {
            self.others.push_reserved(rank, item);
            return;
        }
        self.lane.push_back_reserved(item);
    }

    /// Takes the first item out; None exactly where there is none.
    pub fn pop(&mut self) -> Option<T>
        ensures item { result ≡ first_item self.old.items }
        ensures rest { self.new ≡ record self.old { items = drop 1 self.old.items } }
    {
        if !is_lane_next(self.lane.is_empty(), self.lane_rank, &self.others) {
            let item = self.others.pop()?;
            self.len -= 1;
            return Some(item);
        }
        let item = self.lane.pop_front()?;
        self.len -= 1;
        Some(item)
    }

    /// The item that comes out next; None exactly where there is none. It stays in its place.
    pub fn first(&self) -> Option<&T>
        ensures { option_copied result ≡ first_item self.now.items }
    {
        if is_lane_next(self.lane.is_empty(), self.lane_rank, &self.others) {
            self.lane.front()
        } else {
            self.others.first()
        }
    }

    /// All items go; the room stays.
    pub fn clear(&mut self)
    where
        T: Drop,
        ensures { self.new ≡ record self.old { items = [] } }
    {
        self.lane.clear();
        self.others.clear();
        self.len = 0;
    }

    /// Ends a queue of linear items that has none left.
    pub fn destroy_empty(self)
        requires { self.items ≡ [] }
    {
        self.lane.destroy_empty();
        self.others.destroy_empty();
    }
}
