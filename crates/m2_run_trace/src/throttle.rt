//! What a node's throttle has out, as a line.

ghost use Rattle.std.specs.Prelude.{◌≡◌, ◌++◌, OnOk};
ghost use Rattle.m2_run_trace.specs.Throttle.{changed_throttle, out_of, throttle_line};

use crate::telling::{Teller, TracedCenter};
use crate::words::begin_throttle;
use m2_bytes::{Blob, NoMemory};
use m2_trace::put_number;

/// How many bytes are granted and not given back; 0 where threads share the throttle, which no node of a run in memory has
/// them do (docs/DECISIONS.md).
pub(crate) fn out_of(center: &TracedCenter) -> u64
    ensures { result ≡ out_of center.now }
{
    center.granted().unwrap_or(0)
}

/// Appends how many bytes are out.
#[tactic(auto, unfolding(crate::specs::Throttle::throttle_line))]
fn put_throttle(out: &mut Blob, teller: &Teller<'_>, bytes: u64) -> Result<(), NoMemory>
    ensures { OnOk result (out.new.bytes ≡ out.old.bytes ++ throttle_line teller.now bytes) }
{
    begin_throttle(out, teller.own.name.as_slice())?;
    put_number(out, bytes)?;
    out.push_all(b"\n")
}

/// Appends how many bytes are out, where it isn't what it was.
pub(crate) fn put_changed_throttle(
    out: &mut Blob,
    teller: &Teller<'_>,
    old: u64,
) -> Result<(), NoMemory>
    ensures { OnOk result (out.new.bytes ≡ out.old.bytes ++ changed_throttle teller.now old) }
{
    let bytes = out_of(teller.center);
    if bytes == old {
        return Ok(());
    }
    put_throttle(out, teller, bytes)
}
