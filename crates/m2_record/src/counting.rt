//! What a resumption acknowledges is counted by the step that takes it.

ghost use Rattle.std.specs.Prelude.{◌≡◌, ◌<◌, ◌++◌};
ghost use Rattle.m2_shared.specs.Gates.{Places};
ghost use Rattle.m2_record.specs.Calls.{CountsResumption, Owns, acked_entries};

use crate::record::Record;
use m2_fabric::End;
use m2_journal::{Entry, EntryList};

impl<E: End> Record<E> {
    /// Counts what the resumption on the feed acknowledges, where it is above what is counted already and was
    /// written: the entry Acked, which is reserved. Where there is nothing to count, nothing changes.
    pub(crate) fn count_resumption(&mut self)
        requires room { 0 < self.old.room.entries }
        ensures counts { CountsResumption self.old self.new }
        ensures owned { (places : Places) → Owns places self.old → Owns places self.new }
    {
        let counted = self.core.count_resumption();
        note_acked(counted, &mut self.journal);
    }
}

/// An acknowledgement that was counted has its entry.
fn note_acked(counted: Option<u64>, journal: &mut EntryList)
    requires { 0 < journal.old.room }
    ensures { journal.new.items ≡ journal.old.items ++ acked_entries counted }
{
    match counted {
        Some(number) => journal.push_reserved(Entry::Acked { number }),
        None => {}
    }
}
