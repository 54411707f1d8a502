//! A heap that gives items of one rank out in the order in which they went in.

ghost use Rattle.std.specs.Prelude.{◌≡◌, ◌-◌, ◌<◌, ◌≤◌, [], drop, max, IsOk, OnOk, OnErr};
ghost use Rattle.std.specs.Option.{option_copied};
ghost use Rattle.m2_queues.specs.PriorityQueue.{joined, first_item, first_rank};

use m2_bytes::NoMemory;
use std::alloc::Global;
use std::cmp::Reverse;
use std::collections::BinaryHeap;
use std::marker::Model;

/// An item with its place: the greatest rank first, the earliest post first inside one.
#[derive(Drop)]
#[derive_where(PartialEq, Eq, PartialOrd, Ord)]
pub(crate) struct Posted<T> {
    rank: u64,
    /// How many posts came before it.
    post: Reverse<u64>,
    #[derive_where(skip(EqHashOrd))]
    item: T,
}

impl<T> Posted<T> {
    fn item(&self) -> &T
        ensures { result.now ≡ self.now.item }
    {
        &self.item
    }

    fn rank(&self) -> u64
        ensures { result ≡ self.now.rank }
    {
        self.rank
    }
}

/// Items of a [`PriorityQueue`](crate::PriorityQueue) whose ranks come in any order. Contracts see them as those
/// of the queue, in the order in which they come out.
#[derive(Drop)]
pub(crate) struct StableHeap<T> {
    heap: BinaryHeap<Posted<T>>,
    /// How many items went in.
    posts: u64,
    room: u32,
}

impl<T> Model for StableHeap<T> {
    ghost use Rattle.m2_queues.specs.PriorityQueue.{Line};
    ghost use Rattle.m2_queues.specs.StableHeapFields.{line_of, IsLine};

    ghost Value = { Line T };

    ghost view = { line_of };

    ghost invariant = { IsLine };
}

impl<T> StableHeap<T> {
    /// No items. Takes no memory.
    pub(crate) fn empty(alloc: Global) -> StableHeap<T>
        ensures { result ≡ record { items = []; room = 0 } }
    {
        StableHeap {
            heap: BinaryHeap::new(alloc),
            posts: 0,
            room: 0,
        }
    }

    /// Makes the room at least `n`. Err comes for want of memory, or where fewer than `n` pushes are
    /// left of 2^64 - 1.
    pub(crate) fn reserve(&mut self, n: u32) -> Result<(), NoMemory>
        ensures ok { OnOk result (self.new ≡ record self.old { room = max self.old.room n }) }
        ensures err { OnErr result (self.new ≡ self.old) }
        ensures succeeds { n ≤ self.old.room → IsOk result }
    {
        if n <= self.room {
            return Ok(());
        }
        if u64::MAX - self.posts < u64::from(n) {
            return Err(NoMemory);
        }
        self.heap.reserve(n as usize)?;
        self.room = n;
        Ok(())
    }

    /// Puts an item into the room that is there for it, behind all of its rank or a greater one.
    pub(crate) fn push_reserved(&mut self, rank: u64, item: T)
        requires { 0 < self.old.room }
        ensures { self.new ≡ record { items = joined rank item self.old.items; room = self.old.room - 1 } }
    {
        let posted = Posted {
            rank,
            post: Reverse(self.posts),
            item,
        };
        match self.heap.push(posted) {
            Ok(()) => {
                self.posts += 1;
                self.room -= 1;
            }
            Err(_) => unreachable!(),
        }
    }

    /// Takes the first item out; None exactly where there is none.
    pub(crate) fn pop(&mut self) -> Option<T>
        ensures item { result ≡ first_item self.old.items }
        ensures rest { self.new ≡ record self.old { items = drop 1 self.old.items } }
    {
        let Posted {
            rank: _,
            post: _,
            item,
        } = self.heap.pop()?;
        Some(item)
    }

    /// The item that comes out next; None exactly where there is none. It stays in its place.
    pub(crate) fn first(&self) -> Option<&T>
        ensures { option_copied result ≡ first_item self.now.items }
    {
        match self.heap.peek() {
            Some(posted) => Some(posted.item()),
            None => None,
        }
    }

    /// The rank of the item that comes out next; None exactly where there is none.
    pub(crate) fn first_rank(&self) -> Option<u64>
        ensures { result ≡ first_rank self.now.items }
    {
        match self.heap.peek() {
            Some(posted) => Some(posted.rank()),
            None => None,
        }
    }

    /// All items go; the room stays.
    pub(crate) fn clear(&mut self)
    where
        T: Drop,
        ensures { self.new ≡ record self.old { items = [] } }
    {
        self.heap.clear();
    }

    /// Ends a heap of linear items that has none left.
    pub(crate) fn destroy_empty(self)
        requires { self.items ≡ [] }
    {
        self.heap.destroy_empty();
    }
}
