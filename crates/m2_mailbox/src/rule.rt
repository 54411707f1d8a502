//! The rule of the queue in an inbox, and what each of its steps tells. These types are for the proofs
//! alone.

ghost use Rattle.std.specs.Prelude.{◌≡◌};
ghost use Rattle.m2_mailbox.specs.Views.{after_hearing, after_put, after_telling, joined, one_part, put_right, reunited, take_right, without_part};

use crate::slip::Slip;
use crate::view::View;
use crossbeam_queue::protocol::{Join, Lesson, Outcome, Protocol, Split};
use crossbeam_queue::{Pass, RuledArrayQueue};
use m2_shared::Item;
use std::marker::PhantomData;

/// What the passes put is what was taken and what is held, and all of it belongs to one owner.
pub(crate) struct Handed<T> {
    of: PhantomData<T>,
}

impl<T: Item> Protocol<Slip<T, T::Owner>, View<T, T::Owner>> for Handed<T> {
    ghost use Rattle.m2_mailbox.specs.Rule.{Kept};
    ghost use Rattle.m2_mailbox.specs.declared.view.View.TheVariants.{Fresh};

    ghost holds = { Kept T.belongs };

    ghost first = { Fresh };
}

/// The queue of an inbox.
pub(crate) type Queue<T> = RuledArrayQueue<
    Slip<T, <T as Item>::Owner>,
    View<T, <T as Item>::Owner>,
    Handed<T>,
>;

/// A pass of that queue.
pub(crate) type Seen<T> = Pass<Slip<T, <T as Item>::Owner>, View<T, <T as Item>::Owner>>;

/// The slip with the owner goes into the queue.
pub(crate) struct Tells;

impl<T, O> Outcome<Slip<T, O>, View<T, O>> for Tells {
    ghost then = { λ v x w. w ≡ after_telling x };
}

/// The slip with the owner comes out of the queue.
pub(crate) struct Hears;

impl<T, O> Outcome<Slip<T, O>, View<T, O>> for Hears {
    ghost then = { λ v x w. w ≡ after_hearing v };
}

/// An item is put.
pub(crate) struct Puts;

impl<T, O> Outcome<Slip<T, O>, View<T, O>> for Puts {
    ghost use Rattle.m2_mailbox.specs.Rule.{PutsItem};

    ghost then = { PutsItem };
}

impl<T, O> Lesson<Slip<T, O>, View<T, O>> for Puts {
    ghost use Rattle.m2_mailbox.specs.Rule.{SeesHeld};

    ghost fact = { SeesHeld };
}

/// An item is taken.
pub(crate) struct Takes<T> {
    of: PhantomData<T>,
}

impl<T: Item> Outcome<Slip<T, T::Owner>, View<T, T::Owner>> for Takes<T> {
    ghost use Rattle.m2_mailbox.specs.Rule.{TakesItem};

    ghost then = { TakesItem T.belongs };
}

impl<T: Item> Lesson<Slip<T, T::Owner>, View<T, T::Owner>> for Takes<T> {
    ghost use Rattle.m2_mailbox.specs.Rule.{SeesRest};

    ghost fact = { SeesRest };
}

/// A putter gives one part of its right to a new one.
pub(crate) struct Parts;

impl<T, O> Split<View<T, O>> for Parts {
    ghost left = { without_part };

    ghost right = { one_part };
}

impl<T, O> Join<View<T, O>> for Parts {
    ghost use Rattle.m2_mailbox.specs.Views.{joined};
    ghost use Rattle.m2_mailbox.specs.declared.view.View.TheVariants.{Spent};

    ghost both = { joined };

    ghost spent = { Spent };
}

/// The right to put and the right to take.
pub(crate) struct Rights;

impl<T, O> Split<View<T, O>> for Rights {
    ghost left = { put_right };

    ghost right = { take_right };
}

impl<T, O> Join<View<T, O>> for Rights {
    ghost use Rattle.m2_mailbox.specs.Views.{reunited};
    ghost use Rattle.m2_mailbox.specs.declared.view.View.TheVariants.{Spent};

    ghost both = { reunited };

    ghost spent = { Spent };
}
