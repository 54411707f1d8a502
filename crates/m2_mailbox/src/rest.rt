//! What is left in an inbox when its threads have ended.

ghost use Rattle.std.specs.Prelude.{◌≡◌, true, Some};
ghost use Rattle.crossbeam_queue.specs.Passes.{IsPassOf, view};
ghost use Rattle.m2_mailbox.specs.Views.{all_parts, owner_in, parts_in, takes_in};

use crate::rule::{Queue, Seen, Takes};
use crate::slip::Told;
use m2_shared::Item;
use std::sync::Wait;

/// What is left of a closed inbox. It isn't dropped while it may hold an item: [`next`](Rest::next)
/// gives what is left in order, and once it has answered None [`destroy_empty`](Rest::destroy_empty)
/// ends it. Contracts see the owner, all that was put, and what was taken so far, before the close and
/// after it.
pub struct Rest<T: Item> {
    pub(crate) queue: Queue<T>,
    pub(crate) owner: Told<T::Owner>,
    pub(crate) seen: Seen<T>,
    ghost ours: { IsPassOf queue seen },
    ghost owned: { owner_in (view seen) ≡ Some owner.value },
    ghost whole: { parts_in (view seen) ≡ all_parts },
    ghost takes: { takes_in (view seen) ≡ true },
}

impl<T: Item> Rest<T> {
    ghost use Rattle.std.specs.Prelude.{◌≡◌, ◌++◌, [], ◌∷◌, IfSome, IfNone};
    ghost use Rattle.m2_mailbox.specs.Merge.{IsMergePrefix};
    ghost use Rattle.m2_mailbox.specs.Rest.{NothingIsLeft, rest_owner, rest_puts, rest_taken};

    /// The oldest item that is left. None only where nothing is left: then all that was put was taken.
    /// After each call what was taken is a prefix of what was put, each putter's items in order.
    pub fn next<R: Wait>(&mut self, rt: &R) -> Option<T>
        ensures taken { IfSome result (λ item. rest_taken self.new ≡ rest_taken self.old ++ item ∷ []) }
        ensures belongs { IfSome result (λ item. T.belongs (rest_owner self.old) item) }
        ensures left { IsMergePrefix (rest_puts self.new) (rest_taken self.new) }
        ensures none { IfNone result (NothingIsLeft self.new) }
        ensures same { IfNone result (rest_taken self.new ≡ rest_taken self.old) }
        ensures puts { rest_puts self.new ≡ rest_puts self.old }
        ensures owner { rest_owner self.new ≡ rest_owner self.old }
    {
        match self.queue.pop_as::<Takes<T>, R>(rt, &mut self.seen) {
            Some(slip) => Some(slip.into_item()),
            None => None,
        }
    }

    /// Ends what holds nothing any more.
    pub fn destroy_empty(self)
        requires { NothingIsLeft self }
    {
        let Rest {
            queue: _,
            owner: _,
            seen: _,
        } = self;
    }
}
