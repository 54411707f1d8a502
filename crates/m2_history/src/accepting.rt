//! How much a side has accepted.

ghost use Rattle.std.specs.Prelude.{◌≡◌};
ghost use Rattle.m2_history.specs.Counted as counted;

use crate::keys::is_key;
use crate::side::Side;
use m2_fabric::End;
use m2_journal::{Entry, EntryList};
use m2_policy::Key;

/// How many messages of this key a side has accepted of its peer.
pub fn accepted<E: End>(side: &Side<'_, E>, key: Key) -> u64
    ensures { result ≡ counted.accepted key side.now.record.now.journal }
{
    accepted_in(side.record.journal(), key)
}

fn accepted_in(journal: &EntryList, key: Key) -> u64
    ensures { result ≡ counted.accepted key journal.now.items }
{
    let mut count: u64 = 0;
    for e in journal.iter() {
        if is_accepted(&e, key) {
            count += 1;
        }
    }
    count
}

/// Whether an entry is an acceptance of this key.
fn is_accepted(e: &Entry, key: Key) -> bool
    ensures { result ≡ counted.is_accepted key e.now }
{
    match e {
        Entry::Accepted {
            number: _,
            key: its_key,
        } => is_key(*its_key, key),
        Entry::Post { place: _ }
        | Entry::Dial
        | Entry::Opened { socket: _ }
        | Entry::Read {
            socket: _,
            count: _,
        }
        | Entry::Wrote {
            socket: _,
            count: _,
        }
        | Entry::Closed { socket: _ }
        | Entry::Judged {
            socket: _,
            ask: _,
            number: _,
            answer: _,
        }
        | Entry::Asked {
            ident: _,
            number: _,
        }
        | Entry::Numbered { number: _ }
        | Entry::Acked { number: _ }
        | Entry::Obeyed { full: _ }
        | Entry::Down { planned: _ } => false,
    }
}
