//! What a center has done by now, in numbers.

ghost use Rattle.std.specs.Prelude.{◌≡◌, ◌*◌, ◌^◌, ◌<◌, ◌≤◌, length};
ghost use Rattle.m2_center.specs.Dry.{count_in, entries_in, is_still};

use crate::center::Center;
use m2_fabric::{End, Port};
use m2_record::Record;

/// What a center has done by now, as far as code can count it, and whether something waits to be handed on.
#[derive(Clone, Copy)]
pub(crate) struct Count {
    /// The entries of all its journals.
    pub(crate) entries: u128,
    /// The sockets that its port made.
    pub(crate) sockets: usize,
    /// Whether no letter waits, and no parcel is in the mail.
    pub(crate) mailed: bool,
    /// Whether a letter of a fast kind is held.
    pub(crate) holding: bool,
}

impl<P: Port, D> Center<P, D> {
    /// What it has done by now.
    pub(crate) fn count(&self) -> Count
        ensures { result ≡ count_in self.now }
    {
        Count {
            entries: entries_in(self.records.as_slice()),
            sockets: self.port.made().len(),
            mailed: self.is_mailed(),
            holding: self.out.is_holding(),
        }
    }
}

/// How many entries stand in the journals of these records.
fn entries_in<E: End>(records: &[Record<E>]) -> u128
    requires few { length records.now < 2 ^ 64 }
    ensures counts { result ≡ entries_in records.now }
    ensures within { result ≤ length records.now * 2 ^ 64 }
{
    match records.split_first() {
        None => 0,
        Some((first, rest)) => first.journal().len() as u128 + entries_in(rest),
    }
}

/// Whether a center did nothing between these counts: there is no entry and no socket more, nothing waited to be handed
/// on, and a letter that was held is held still.
pub(crate) fn is_still(before: &Count, behind: &Count) -> bool
    ensures { result ≡ is_still before.now behind.now }
{
    behind.entries == before.entries
        && behind.sockets == before.sockets
        && before.mailed
        && (!before.holding || behind.holding)
}
