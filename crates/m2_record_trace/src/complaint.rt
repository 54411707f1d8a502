//! What is said of a text that has no trace.

ghost use Rattle.std.specs.Prelude.{◌≡◌, ◌++◌, IfOk, OnOk, Some};
ghost use Rattle.m2_record_trace.specs.Complaint.{bad_schedule, complaint_of, no_socket, reason_of};

use crate::tracing::Untraced;
use m2_bytes::{Blob, NoMemory};
use m2_program::put_bad_line;
use m2_scenario::Kind;
use std::alloc::Global;

/// The complaint of a text that has no trace, with its line feed. Err is want of memory, also where that is why it has
/// none.
pub(crate) fn complaint(alloc: Global, why: Untraced) -> Result<Blob, NoMemory>
    ensures { IfOk result (λ text. complaint_of why ≡ Some text.bytes) }
{
    let mut text = Blob::empty(alloc);
    match why {
        Untraced::BadLine { line, kind } => put_bad(&mut text, line, reason(kind))?,
        Untraced::NoSocket { line } => put_bad(&mut text, line, no_socket())?,
        Untraced::NoMemory => return Err(NoMemory),
    }
    Ok(text)
}

/// Appends which line is bad, and why.
#[tactic(auto, unfolding(crate::specs::Complaint::bad_schedule))]
fn put_bad(text: &mut Blob, line: u32, reason: &[u8]) -> Result<(), NoMemory>
    ensures { OnOk result (text.new.bytes ≡ text.old.bytes ++ bad_schedule line reason.now) }
{
    put_bad_line(text, b"schedule", line)?;
    text.push_all(b": ")?;
    text.push_all(reason)?;
    text.push_all(b"\n")
}

/// What is wrong about a line of this kind.
#[tactic(auto, unfolding(crate::specs::Complaint::reason_of))]
fn reason(kind: Kind) -> &'static [u8]
    ensures { result.now ≡ reason_of kind }
{
    match kind {
        Kind::Unknown => b"a byte that no line has, or a first word that isn't known",
        Kind::Words => b"a wrong number of words",
        Kind::Number => b"a number that is malformed or out of its range",
        Kind::NoNode => b"a side that isn't there",
        Kind::Taken => b"a second pair",
        Kind::Policy => b"a policy that isn't known, or two that no link can have",
        Kind::Hex => b"a word that spells no bytes",
        Kind::Limit => b"more than a schedule may have",
        Kind::Name | Kind::Address | Kind::Link | Kind::Mode => b"it can't be read",
    }
}

/// What is wrong about a line that names a socket too early.
#[tactic(auto, unfolding(crate::specs::Complaint::no_socket))]
fn no_socket() -> &'static [u8]
    ensures { result.now ≡ no_socket }
{
    b"a socket that isn't opened yet"
}
