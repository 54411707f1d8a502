//! What a putter and the taker hold.

ghost use Rattle.std.specs.Prelude.{◌≡◌, ◌<◌, ◌+◌, ◌++◌, [], ◌∷◌};
ghost use Rattle.m2_mailbox.specs.Passes.{IsPutPassOf, parts_of, puts_of};

use crate::inbox::Inbox;
use crate::rule::{Parts, Seen};
use m2_shared::Item;
use std::sync::Wait;

/// The right to put into one inbox, with what was put by it. It takes no memory, and goes with its
/// thread. Letting it go loses nothing but that knowledge: without all passes the inbox isn't closed.
///
/// Contracts see how many parts of the right to put it has, and the lists that were put: by the pass
/// itself, and then by each pass that was joined into it.
pub struct PutPass<T: Item> {
    pub(crate) seen: Seen<T>,
}

impl<T: Item> PutPass<T> {
    /// A pass for a new putter, with one part of this pass's right.
    pub fn split<R: Wait>(&mut self, _rt: &R, b: &Inbox<T>) -> PutPass<T>
        requires pass { IsPutPassOf b.now self.old }
        requires parts { 1 < parts_of self.old }
        ensures pass { IsPutPassOf b.now self.new }
        ensures made { IsPutPassOf b.now result }
        ensures parts { parts_of self.new + 1 ≡ parts_of self.old }
        ensures one { parts_of result ≡ 1 }
        ensures puts { puts_of self.new ≡ puts_of self.old }
        ensures none { puts_of result ≡ [] ∷ [] }
    {
        PutPass {
            seen: b.queue.another::<Parts>(&mut self.seen),
        }
    }

    /// Takes in a pass whose putter has ended, with its parts and with what was put by it.
    pub fn join<R: Wait>(&mut self, _rt: &R, b: &Inbox<T>, other: PutPass<T>)
        requires pass { IsPutPassOf b.now self.old }
        requires other { IsPutPassOf b.now other }
        ensures pass { IsPutPassOf b.now self.new }
        ensures parts { parts_of self.new ≡ parts_of self.old + parts_of other }
        ensures puts { puts_of self.new ≡ puts_of self.old ++ puts_of other }
    {
        b.queue.absorb::<Parts>(&mut self.seen, other.into_seen());
    }

    pub(crate) fn into_seen(self) -> Seen<T>
        ensures { result ≡ self.seen }
    {
        let Self { seen } = self;
        seen
    }
}

impl<T: Item> Drop for PutPass<T> {
    fn drop(self) {
        let Self { seen: _ } = self;
    }
}

/// The right to take out of one inbox, with what was taken by it. It takes no memory, and goes with its
/// thread. Contracts see the list that was taken, and how often something was looked for, modulo 2^64.
pub struct GetPass<T: Item> {
    pub(crate) seen: Seen<T>,
    pub(crate) looks: u64,
}

impl<T: Item> GetPass<T> {
    pub(crate) fn into_seen(self) -> Seen<T>
        ensures { result ≡ self.seen }
    {
        let Self { seen, looks: _ } = self;
        seen
    }
}

impl<T: Item> Drop for GetPass<T> {
    fn drop(self) {
        let Self { seen: _, looks: _ } = self;
    }
}
