//! One side of a link.

ghost use Rattle.std.specs.Prelude.{◌≡◌};
ghost use Rattle.m2_history.specs.Link.{parts_of};

use crate::parts::Parts;
use m2_dispatch::LoggedList;
use m2_fabric::End;
use m2_record::Record;

/// One side of a link: its record, and what the dispatchers of its node were called with.
#[derive(Drop)]
pub struct Side<'a, E: End> {
    pub record: &'a Record<E>,
    /// What the dispatcher was called with that takes a message at once, by the thread that has read it.
    pub fast: &'a LoggedList,
    /// What the dispatcher behind the queue was called with.
    pub log: &'a LoggedList,
}

impl<'a, E: End> Side<'a, E> {
    /// What its record lends: its journal, the trails of the halves that it took, and its ends.
    pub fn parts(&self) -> Parts<'a, E>
        ensures { result ≡ parts_of self.now.record.now }
    {
        Parts::of(
            self.record.journal(),
            self.record.trails().as_slice(),
            self.record.feed(),
            self.record.spent(),
        )
    }
}
