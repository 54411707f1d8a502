//! Why an end was closed.

ghost use Rattle.std.specs.Prelude.{◌≡◌};
ghost use Rattle.m2_fabric.specs.Log.{log_of};
ghost use Rattle.m2_run_trace.specs.Cause.{begins_frame, cause_at, cause_by, cause_in_journal, cause_of_answer, cause_of_half, ends_in_frame, gives_up, leaves_own};
ghost use Rattle.m2_run_trace.specs.Telling.{seen_log};

use m2_fabric::{EndLog, SocketId};
use m2_journal::Entry;
use m2_session::Answer;
use m2_trace::takes;

/// A WAIT: its first byte on the wire, and its length.
const WAIT: u8 = 16;

const WAIT_LENGTH: usize = 32;

/// An IDENT_MISSING_FEATURES.
const MISSING: u8 = 10;

const MISSING_LENGTH: usize = 44;

/// Why the end of a session was closed, as a word behind a space. `before` is the entry in front of that which tells of
/// it.
pub(crate) fn cause_in_journal(
    before: Option<Entry>,
    socket: &SocketId,
    log: Option<&EndLog>,
) -> &'static [u8]
    ensures { result.now ≡ cause_in_journal before socket.now (seen_log log.entry) }
{
    match before {
        Some(Entry::Down { planned: _ }) => b" down",
        Some(
            Entry::Judged {
                socket: other,
                answer,
                ..
            },
        ) => {
            if other.is_same(socket) {
                cause_at(log)
            } else {
                cause_of_answer(&answer, log)
            }
        }
        _ => cause_at(log),
    }
}

/// The same behind the judgement of an ask on another socket, by its answer.
fn cause_of_answer(answer: &Answer, log: Option<&EndLog>) -> &'static [u8]
    ensures { result.now ≡ cause_of_answer answer.now (seen_log log.entry) }
{
    if gives_up(answer) {
        b" pending"
    } else if takes(answer) {
        b" taken"
    } else {
        cause_at(log)
    }
}

/// Whether the answer closes the socket that this side has: it takes the ask's, or gives the side's own up.
pub(crate) fn leaves_own(answer: &Answer) -> bool
    ensures { result ≡ leaves_own answer.now }
{
    gives_up(answer) || takes(answer)
}

/// Whether the answer gives up the socket on which this side has asked.
fn gives_up(answer: &Answer) -> bool
    ensures { result ≡ gives_up answer.now }
{
    matches!(answer, Answer::ResetPending)
}

/// The same of a half. `judged` tells whether its ask was judged in this turn.
pub(crate) fn cause_of_half(judged: bool, log: &EndLog) -> &'static [u8]
    ensures { result.now ≡ cause_of_half judged (log_of log.now) }
{
    if judged { b" refused" } else { cause_by(log) }
}

/// Why an end was closed, by what it did; nothing where there is none.
fn cause_at(log: Option<&EndLog>) -> &'static [u8]
    ensures { result.now ≡ cause_at (seen_log log.entry) }
{
    match log {
        None => b"",
        Some(log) => cause_by(log),
    }
}

/// The same of an end.
fn cause_by(log: &EndLog) -> &'static [u8]
    ensures { result.now ≡ cause_by (log_of log.now) }
{
    if log.ended {
        b" ended"
    } else if ends_in_frame(log.got.as_slice(), WAIT, WAIT_LENGTH) {
        b" waited"
    } else if ends_in_frame(log.got.as_slice(), MISSING, MISSING_LENGTH) {
        b" refused"
    } else {
        b" failed"
    }
}

/// Whether the bytes end in a frame of this tag and length that has one segment.
fn ends_in_frame(bytes: &[u8], tag: u8, length: usize) -> bool
    ensures { result ≡ ends_in_frame tag length bytes.now }
{
    if bytes.len() < length {
        return false;
    }
    let (_, last) = bytes.split_at(bytes.len() - length);
    begins_frame(last, tag)
}

/// Whether they begin as such a frame does.
fn begins_frame(bytes: &[u8], tag: u8) -> bool
    ensures { result ≡ begins_frame tag bytes.now }
{
    match bytes {
        [first, segments, ..] => *first == tag && *segments == 1,
        _ => false,
    }
}
