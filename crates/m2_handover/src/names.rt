//! Which inbox is whose.

ghost use Rattle.std.specs.Prelude.{◌≡◌, slice_get};
ghost use Rattle.std.specs.Option.{option_copied};

use crate::handed::Handed;
use m2_fabric::End;
use m2_mailbox::Inbox;
use std::marker::{Brand, PhantomData};

/// Names the inboxes of all event threads, for contracts alone, in the order of the threads' numbers. A port goes through calls
/// that know it as a port and nothing else, so what is known of it when its thread has ended is what its type says; by this
/// its type says which inbox is its own, and which those are that its door puts into. Each call of a program picks it.
pub trait InboxNames {
    ghost use Rattle.std.specs.Prelude.{List};
    ghost use Rattle.m2_handover.specs.Handed.{OnItsWay};
    ghost use Rattle.m2_mailbox.specs.declared.inbox.Inbox.{Inbox};
    ghost use Rattle.m2_trail.specs.declared.home.HomeOf.{HomeOf};

    ghost inboxes: { List (Inbox OnItsWay HomeOf) };
}

/// No inbox has a name.
impl InboxNames for Brand {
    ghost use Rattle.std.specs.Prelude.{[]};

    ghost inboxes = { [] };
}

/// Lends the inboxes of all event threads. It is a trait, so that no type of a port says for how long they are lent.
pub trait Inboxes<E: End>: Drop {
    ghost use Rattle.std.specs.Prelude.{List};
    ghost use Rattle.m2_handover.specs.Handed.{OnItsWay};
    ghost use Rattle.m2_mailbox.specs.declared.inbox.Inbox.{Inbox};
    ghost use Rattle.m2_trail.specs.declared.home.HomeOf.{HomeOf};

    ghost inboxes: { List (Inbox OnItsWay HomeOf) };

    /// That of the thread with this number, where there is one.
    fn inbox(&self, number: u32) -> Option<&Inbox<Handed<E>>>
        ensures { option_copied result ≡ slice_get Self.inboxes number };

    /// Another one that lends the same.
    fn again(&self) -> Self;
}

/// The inboxes that have these names, lent.
#[derive(Drop)]
pub struct LentInboxes<'a, E: End, N: InboxNames> {
    inboxes: &'a [Inbox<Handed<E>>],
    of: PhantomData<N>,
    ghost named: { N.inboxes ≡ inboxes.now },
}

impl<'a, E: End, N: InboxNames> LentInboxes<'a, E, N> {
    pub fn new(inboxes: &'a [Inbox<Handed<E>>]) -> LentInboxes<'a, E, N>
        requires { N.inboxes ≡ inboxes.now }
    {
        LentInboxes {
            inboxes,
            of: PhantomData,
        }
    }
}

impl<'a, E: End, N: InboxNames> Inboxes<E> for LentInboxes<'a, E, N> {
    ghost inboxes = { N.inboxes };

    fn inbox(&self, number: u32) -> Option<&Inbox<Handed<E>>> {
        self.inboxes.get(number as usize)
    }

    fn again(&self) -> LentInboxes<'a, E, N> {
        LentInboxes {
            inboxes: self.inboxes,
            of: PhantomData,
        }
    }
}
