//! What makes a connect of a side due, as a word.

ghost use Rattle.std.specs.Prelude.{◌≡◌};
ghost use Rattle.m2_trace.specs.Dials as dials;

use crate::rows::takes;
use m2_journal::{Entries, Entry};
use m2_session::{Phase, Session};

/// What makes a connect of a side due.
#[derive(Clone, Copy, Debug)]
pub enum DialCause {
    /// The side is at rest, and has something to write.
    Posted,
    /// It is at rest, has nothing to write, and a dial was asked for.
    Dialled,
    /// It waits, and dials once the wait is over.
    Waited,
}

/// What makes a connect due of a side with this session, the moment aside; none where none is due. `waits` says that
/// something is kept or waits to be written, `wanted` that a dial was asked for that wasn't made yet.
pub fn dial_cause(session: &Session, waits: bool, wanted: bool) -> Option<DialCause>
    ensures { result ≡ dials.cause_of session.now waits wanted }
{
    if session.policy.server {
        return None;
    }
    match session.phase {
        Phase::Wait => Some(DialCause::Waited),
        Phase::Absent | Phase::Standby => cause_at_rest(waits, wanted),
        Phase::Connecting | Phase::IdentSent | Phase::ReconnectSent | Phase::Ready => None,
    }
}

/// The same of a side at rest.
fn cause_at_rest(waits: bool, wanted: bool) -> Option<DialCause>
    ensures { result ≡ dials.cause_at_rest waits wanted }
{
    if waits {
        Some(DialCause::Posted)
    } else if wanted {
        Some(DialCause::Dialled)
    } else {
        None
    }
}

/// What makes a connect due behind these entries, where this did before them; none where they don't tell it: they have
/// something else than asks that were judged and not taken.
pub fn cause_behind(cause: Option<DialCause>, entries: Entries<'_>) -> Option<DialCause>
    ensures { result ≡ dials.cause_behind cause entries.entry }
{
    let mut behind = cause;
    for entry in entries {
        behind = cause_after(&entry, behind);
    }
    behind
}

/// The same behind one entry more.
fn cause_after(entry: &Entry, cause: Option<DialCause>) -> Option<DialCause>
    ensures { result ≡ dials.cause_after entry.now cause }
{
    match entry {
        Entry::Judged { answer, .. } if !takes(answer) => cause,
        _ => None,
    }
}

/// The word of a cause, behind a space; nothing where there is none.
pub fn cause_word(cause: Option<DialCause>) -> &'static [u8]
    ensures { result.now ≡ dials.cause_word cause }
{
    match cause {
        Some(DialCause::Posted) => b" posted",
        Some(DialCause::Dialled) => b" dialled",
        Some(DialCause::Waited) => b" waited",
        None => b"",
    }
}
