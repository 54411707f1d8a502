//! What is said of a text that has no trace.

ghost use Rattle.std.specs.Prelude.{◌≡◌, ◌++◌, IfOk, OnOk, Some};
ghost use Rattle.m2_run_trace.specs.Complaint.{bad_scenario, complaint_of};

use crate::tracing::Untraced;
use m2_bytes::{Blob, NoMemory, put_decimal};
use m2_program::put_bad_line;
use m2_scenario::Kind;
use std::alloc::Global;

/// The complaint of a text that has no trace, with its line feed. Err is want of memory, also where that is why it has
/// none.
pub(crate) fn complaint(alloc: Global, why: Untraced) -> Result<Blob, NoMemory>
    ensures { IfOk result (λ text. complaint_of why ≡ Some text.bytes) }
{
    let mut text = Blob::empty(alloc);
    match why {
        Untraced::BadLine { line, flaw } => put_bad(&mut text, line, flaw.kind())?,
        Untraced::NoMemory => return Err(NoMemory),
    }
    Ok(text)
}

/// Appends which line is bad, ` kind `, the kind's number, and a line feed.
#[tactic(auto, unfolding(crate::specs::Complaint::bad_scenario))]
fn put_bad(text: &mut Blob, line: u32, kind: Kind) -> Result<(), NoMemory>
    ensures { OnOk result (text.new.bytes ≡ text.old.bytes ++ bad_scenario line kind) }
{
    put_bad_line(text, b"scenario", line)?;
    text.push_all(b" kind ")?;
    put_decimal(text, u64::from(kind.number()))?;
    text.push_all(b"\n")
}
