//! The inbox.

ghost use Rattle.std.specs.Prelude.{◌≡◌, ◌≤◌, ◌++◌, [], ◌∷◌, IfOk, OnOk, IfErr, OnErr, IfSome, IfNone};
ghost use Rattle.m2_mailbox.specs.Passes.{AreHeldAtMost, IsGetPassOf, IsPutPassOf, WasFull, capacity_of, looks_of, next_look, owner_of, parts_of, puts_of, taken_of};
ghost use Rattle.m2_mailbox.specs.Rest.{rest_owner, rest_puts, rest_taken};
ghost use Rattle.m2_mailbox.specs.Views.{all_parts, put_by};

use crate::full::Full;
use crate::passes::{GetPass, PutPass};
use crate::rest::Rest;
use crate::rule::{Hears, Puts, Queue, Rights, Takes, Tells};
use crate::slip::{Slip, Told};
use m2_bytes::NoMemory;
use m2_shared::Item;
use std::alloc::Global;
use std::mem::ManuallyDrop;
use std::sync::Wait;

/// How many arrivals the inbox of an event center holds.
pub const MOST_ARRIVALS: u32 = 64;

/// How many parcels a mail holds.
pub const MOST_PARCELS: u32 = 1_024;

/// An inbox with one owner for good: each thread that has a pass puts items that belong to the owner,
/// and one takes them, the oldest first. It isn't dropped, since it may hold items:
/// [`close`](Inbox::close) ends it, and [`Rest`] gives what is left.
///
/// Maker: [`new`](Inbox::new). Calls of threads, each with its pass: [`put`](Inbox::put) and
/// [`take`](Inbox::take), which take no memory. End: [`close`](Inbox::close); or, of an inbox whose passes are lost,
/// [`let_go`](Inbox::let_go). Contracts see the owner
/// and the capacity. The right to put is in parts, so that who has all of them knows that nobody else
/// puts: the first pass begins with all, each [`split`](PutPass::split) takes one away, and a
/// [`join`](PutPass::join) brings those of the other pass back.
pub struct Inbox<T: Item> {
    pub(crate) queue: Queue<T>,
    pub(crate) owner: Told<T::Owner>,
}

impl<T: Item> Inbox<T> {
    /// An empty inbox for so many items, with all 2^40 parts of the right to put and with the right to
    /// take.
    pub fn new(
        alloc: Global,
        capacity: u32,
        owner: &T::Owner,
    ) -> Result<(Inbox<T>, PutPass<T>, GetPass<T>), NoMemory>
        requires capacity { 1 ≤ capacity }
        ensures owner { IfOk result (λ r. owner_of r.0 ≡ owner.now) }
        ensures capacity { IfOk result (λ r. capacity_of r.0 ≡ capacity) }
        ensures put { IfOk result (λ r. IsPutPassOf r.0 r.1) }
        ensures get { IfOk result (λ r. IsGetPassOf r.0 r.2) }
        ensures parts { IfOk result (λ r. parts_of r.1 ≡ all_parts) }
        ensures puts { IfOk result (λ r. puts_of r.1 ≡ [] ∷ []) }
        ensures taken { IfOk result (λ r. taken_of r.2 ≡ []) }
    {
        let (queue, mut seen) = Queue::<T>::ruled(alloc, capacity as usize)?;
        let slip = Slip::Owner(Told::of(owner));
        let Ok(()) = queue.try_push_as::<Tells>(&mut seen, slip) else {
            return Err(NoMemory);
        };
        let Some(_slip) = queue.try_pop_as::<Hears>(&mut seen) else {
            return Err(NoMemory);
        };
        let taker = queue.another::<Rights>(&mut seen);
        let inbox = Inbox {
            queue,
            owner: Told::of(owner),
        };
        let get = GetPass {
            seen: taker,
            looks: 0,
        };
        Ok((inbox, PutPass { seen }, get))
    }

    /// Puts an item behind those that the inbox holds. Full gives it back, only where the inbox held its
    /// capacity at a moment of the call: who has all parts of the right to put knows that what was taken
    /// before and what was held then is all that it put.
    #[tactic(auto, using(crate::proofs::Held::was_full))]
    pub fn put<R: Wait>(&self, rt: &R, pass: &mut PutPass<T>, item: T) -> Result<(), Full<T>>
        requires pass { IsPutPassOf self.now pass.old }
        requires belongs { T.belongs (owner_of self.now) item }
        ensures pass { IsPutPassOf self.now pass.new }
        ensures parts { parts_of pass.new ≡ parts_of pass.old }
        ensures put { OnOk result (puts_of pass.new ≡ put_by item (puts_of pass.old)) }
        ensures same { OnErr result (puts_of pass.new ≡ puts_of pass.old) }
        ensures item { IfErr result (λ full. full.item ≡ item) }
        ensures full { OnErr result (WasFull self.now pass.old) }
    {
        // Who takes the slip out opens it, so the item is neither lost nor let go.
        let slip = Slip::Item(unsafe { ManuallyDrop::new_unchecked(item) });
        match self.queue.push_as::<Puts, R>(rt, &mut pass.seen, slip) {
            Ok(()) => Ok(()),
            Err(slip) => Err(Full {
                item: slip.into_item(),
            }),
        }
    }

    /// Takes the oldest item. None only where the inbox was empty at a moment of the call. No clause names
    /// that moment, since the taker knows what it took and nothing of what others put: it is what the queue
    /// answers for, and what [`Rest::next`] ensures at the end.
    pub fn take<R: Wait>(&self, rt: &R, pass: &mut GetPass<T>) -> Option<T>
        requires pass { IsGetPassOf self.now pass.old }
        ensures pass { IsGetPassOf self.now pass.new }
        ensures taken { IfSome result (λ item. taken_of pass.new ≡ taken_of pass.old ++ item ∷ []) }
        ensures belongs { IfSome result (λ item. T.belongs (owner_of self.now) item) }
        ensures none { IfNone result (taken_of pass.new ≡ taken_of pass.old) }
        ensures looked { looks_of pass.new ≡ next_look (looks_of pass.old) }
    {
        pass.looks = pass.looks.wrapping_add(1);
        match self.queue.pop_as::<Takes<T>, R>(rt, &mut pass.seen) {
            Some(slip) => Some(slip.into_item()),
            None => None,
        }
    }

    /// Ends the inbox, of which these are the only passes, and gives what is left: with what was taken
    /// it is all that was put, each putter's items in order.
    pub fn close<R: Wait>(self, rt: &R, put: PutPass<T>, get: GetPass<T>) -> Rest<T>
        requires put { IsPutPassOf self put }
        requires get { IsGetPassOf self get }
        requires only { parts_of put ≡ all_parts }
        ensures owner { rest_owner result ≡ owner_of self }
        ensures puts { rest_puts result ≡ puts_of put }
        ensures taken { rest_taken result ≡ taken_of get }
        ensures held { AreHeldAtMost (capacity_of self) (puts_of put) (taken_of get) }
    {
        let Inbox { queue, owner } = self;
        let mut seen = put.into_seen();
        queue.absorb::<Rights>(&mut seen, get.into_seen());
        queue.len_as::<Takes<T>, R>(rt, &mut seen);
        Rest { queue, owner, seen }
    }

    /// Lets the inbox go where not all passes are at hand. What it still holds is lost, memory and all.
    pub fn let_go(self) {
        let Inbox { queue: _, owner: _ } = self;
    }
}
