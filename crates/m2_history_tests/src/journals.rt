//! Journals made by hand.

use m2_bytes::NoMemory;
use m2_journal::{Entry, EntryList};
use std::alloc::Global;

/// Appends an entry.
pub(crate) fn add(journal: &mut EntryList, entry: Entry) -> Result<(), NoMemory> {
    journal.reserve(1)?;
    journal.push_reserved(entry);
    Ok(())
}

/// A journal of these entries.
pub(crate) fn journal(alloc: Global, entries: &[Entry]) -> Result<EntryList, NoMemory> {
    let mut journal = EntryList::empty(alloc);
    for e in entries {
        add(&mut journal, *e)?;
    }
    Ok(journal)
}
