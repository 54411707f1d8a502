//! What the queue holds.

ghost use Rattle.std.specs.Prelude.{◌≡◌};
ghost use Rattle.std.specs.Borrow.{ftrue};

use std::marker::{Model, PhantomData};
use std::mem::ManuallyDrop;

/// An owner that contracts see and no code keeps: it takes no memory.
pub(crate) struct Told<O> {
    marker: PhantomData<O>,
    pub(crate) ghost value: { O },
}

impl<O> Model for Told<O> {
    ghost also_owns = { λ _. ftrue };
}

impl<O> Told<O> {
    /// This owner.
    pub(crate) fn of(owner: &O) -> Told<O>
        ensures { result.value ≡ owner.now }
    {
        let _ = owner;
        Told {
            marker: PhantomData,
        }
    }
}

unsafe impl<O> Send for Told<O> {}

unsafe impl<O> Sync for Told<O> {}

impl<O> Drop for Told<O> {
    fn drop(self) {
        let Self { marker: _ } = self;
    }
}

/// What stands in a place of the queue. Letting one go loses no memory, and the item in it is then lost:
/// only a queue that holds no item is let go.
#[derive(Drop)]
pub(crate) enum Slip<T, O> {
    /// No item: it tells the rule who the owner is, while the inbox is made.
    Owner(Told<O>),
    Item(ManuallyDrop<T>),
}

impl<T, O> Slip<T, O> {
    ghost use Rattle.m2_mailbox.specs.Slip.{HasItem, IsItemOf};

    /// The item, moved out.
    pub(crate) fn into_item(self) -> T
        requires { HasItem self }
        ensures { IsItemOf result self }
    {
        match self {
            Slip::Item(item) => ManuallyDrop::into_inner(item),
            Slip::Owner(_owner) => unreachable!(),
        }
    }
}
