//! The messages of an outgoing queue, each in one place.

ghost use Rattle.std.specs.Prelude.{◌≡◌, ◌+◌, ◌-◌, ◌<◌, ◌≤◌, ◌++◌, [], nat_lt, length, drop, take, max, slice_get, IsOk, OnOk, OnErr};
ghost use Rattle.std.specs.Option.{option_copied};
ghost use Rattle.std.specs.VecDeque.{deque_len, deque_capacity};
ghost use Rattle.m2_queues.specs.KeptLine.{after_keep};
ghost use Rattle.m2_queues.specs.PriorityQueue.{joined, first_item};

use crate::priority_queue::{is_lane_next, lane_rank_for};
use crate::stable_heap::StableHeap;
use m2_bytes::NoMemory;
use m2_message::Message;
use std::alloc::Global;
use std::collections::VecDeque;
use std::marker::Model;

/// Messages that are kept, in order, and those that wait behind them, the greatest rank first and inside a rank the
/// one that went in first, as in a [`PriorityQueue`](crate::PriorityQueue). Contracts see both lists, with the room
/// that is promised.
///
/// A message that waited in the lane is kept in its place there. Where one of another rank comes to be kept, the kept
/// ones of the lane go to the back of the front, and it goes behind them. So each message goes to the front once at
/// most, and none does as long as all that wait are of one rank. The front has room for all messages from the start.
#[derive(Drop)]
pub(crate) struct KeptLine {
    /// The first that are kept.
    front: VecDeque<Message>,
    /// The others that are kept, and behind them those that wait of one rank, that of the first message that went in
    /// while none waited.
    lane: VecDeque<Message>,
    /// How many of the lane are kept.
    taken: usize,
    lane_rank: u64,
    /// Those that wait of other ranks.
    others: StableHeap<Message>,
    /// How many wait.
    len: usize,
    room: u32,
}

impl Model for KeptLine {
    ghost use Rattle.m2_queues.specs.KeptLine.{KeptAndWaiting};
    ghost use Rattle.m2_queues.specs.KeptLineFields.{kept_of, IsKeptLine};

    ghost Value = { KeptAndWaiting };

    ghost view = { kept_of };

    ghost invariant = { IsKeptLine };
}

/// Moves the first so many of the lane to the back of the front.
fn move_taken(lane: &mut VecDeque<Message>, count: usize, front: &mut VecDeque<Message>)
    requires there { count ≤ deque_len lane.old }
    requires room { deque_len front.old + count ≤ deque_capacity front.old }
    ensures front { front.new.items ≡ front.old.items ++ take count lane.old.items }
    ensures front_len { deque_len front.new ≡ deque_len front.old + count }
    ensures front_capacity { deque_capacity front.new ≡ deque_capacity front.old }
    ensures lane { lane.new.items ≡ drop count lane.old.items }
    ensures lane_len { deque_len lane.new + count ≡ deque_len lane.old }
    ensures lane_capacity { deque_capacity lane.new ≡ deque_capacity lane.old }
{
    for n in 0..count {
        match lane.pop_front() {
            Some(message) => front.push_back_reserved(message),
            None => unreachable!(),
        }
    }
}

impl KeptLine {
    /// No messages. Takes no memory.
    pub(crate) fn empty(alloc: Global) -> KeptLine
        ensures { result ≡ record { kept = []; waiting = []; room = 0 } }
    {
        KeptLine {
            front: VecDeque::new(alloc),
            lane: VecDeque::new(alloc),
            taken: 0,
            lane_rank: 0,
            others: StableHeap::empty(alloc),
            len: 0,
            room: 0,
        }
    }

    /// How many are kept.
    pub(crate) fn kept(&self) -> usize
        ensures { result ≡ length self.now.kept }
    {
        self.front.len() + self.taken
    }

    /// How many wait.
    pub(crate) fn waiting(&self) -> usize
        ensures { result ≡ length self.now.waiting }
    {
        self.len
    }

    /// How many more may wait whatever memory there is.
    pub(crate) fn room(&self) -> u32
        ensures { result ≡ self.now.room }
    {
        self.room
    }

    /// Makes the room at least `n`. Err comes for want of memory, or where so many more couldn't be counted.
    pub(crate) fn reserve(&mut self, n: u32) -> Result<(), NoMemory>
        ensures ok { OnOk result (self.new ≡ record self.old { room = max self.old.room n }) }
        ensures err { OnErr result (self.new ≡ self.old) }
        ensures succeeds { n ≤ self.old.room → IsOk result }
    {
        if n <= self.room {
            return Ok(());
        }
        let needed = self.len + self.taken + n as usize;
        if self.front.capacity() - self.front.len() < needed {
            // Twice as much, or each post might make the room anew: a deque grows by what it holds, which may be nothing.
            self.front.reserve(2 * needed)?;
        }
        self.lane.reserve(n as usize)?;
        self.others.reserve(n)?;
        self.room = n;
        Ok(())
    }

    /// A message joins those that wait, in the room that is there for it, behind all of its rank or a greater one.
    pub(crate) fn push_reserved(&mut self, rank: u64, message: Message)
        requires { 0 < self.old.room }
        ensures { self.new ≡ record self.old { waiting = joined rank message self.old.waiting; room = self.old.room - 1 } }
    {
        self.lane_rank = lane_rank_for(self.len, self.lane_rank, rank);
        self.len += 1;
        self.room -= 1;
        if rank != self.lane_rank {
            self.others.push_reserved(rank, message);
            return;
        }
        self.lane.push_back_reserved(message);
    }

    /// The first that waits; None exactly where none does. It stays in its place.
    pub(crate) fn first(&self) -> Option<&Message>
        ensures { option_copied result ≡ first_item self.now.waiting }
    {
        if is_lane_next(self.lane.len() == self.taken, self.lane_rank, &self.others) {
            self.lane.get(self.taken)
        } else {
            self.others.first()
        }
    }

    /// The first that waits is kept, behind all that are; whether one waited.
    pub(crate) fn keep_first(&mut self) -> bool
        ensures some { result ≡ nat_lt 0 (length self.old.waiting) }
        ensures kept { self.new ≡ after_keep self.old }
    {
        if self.len == 0 {
            return false;
        }
        self.len -= 1;
        if is_lane_next(self.lane.len() == self.taken, self.lane_rank, &self.others) {
            self.taken += 1;
            return true;
        }
        move_taken(&mut self.lane, self.taken, &mut self.front);
        self.taken = 0;
        match self.others.pop() {
            Some(message) => self.front.push_back_reserved(message),
            None => unreachable!(),
        }
        true
    }

    /// A kept one, by its place.
    pub(crate) fn at(&self, place: usize) -> Option<&Message>
        ensures { option_copied result ≡ slice_get self.now.kept place }
    {
        let before = self.front.len();
        if place < before {
            return self.front.get(place);
        }
        if place - before < self.taken {
            return self.lane.get(place - before);
        }
        None
    }

    /// The first so many that are kept go.
    pub(crate) fn let_go(&mut self, count: usize)
        requires { count ≤ length self.old.kept }
        ensures { self.new ≡ record self.old { kept = drop count self.old.kept } }
    {
        let before = count.min(self.front.len());
        self.front.drain(..before);
        self.lane.drain(..count - before);
        self.taken -= count - before;
    }

    /// All messages go; the room stays.
    pub(crate) fn clear(&mut self)
        ensures { self.new ≡ record self.old { kept = []; waiting = [] } }
    {
        self.front.clear();
        self.lane.clear();
        self.others.clear();
        self.taken = 0;
        self.len = 0;
    }
}
