//! The fields that KEEPALIVE2 and KEEPALIVE2_ACK share: a time.

ghost use Rattle.std.specs.Prelude.{◌≡◌};
ghost use Rattle.m2_bytes.specs.Blob.{Appends};
ghost use Rattle.m2_control.specs.Outcome.{GivesFront};
ghost use Rattle.m2_control.specs.Stamp.{stamp_at, stamp_text};

use crate::fault::ControlFault;
use m2_bytes::{Blob, NoMemory, Reader, put_u32};

/// Seconds, and nanoseconds.
pub(crate) fn read_stamp(r: &mut Reader<'_>) -> Result<(u32, u32), ControlFault>
    ensures { GivesFront (λ s. (s.0, s.1)) result r.new (stamp_at r.old) }
{
    let seconds = r.u32()?;
    let nanos = r.u32()?;
    Ok((seconds, nanos))
}

/// Appends them.
pub(crate) fn put_stamp(out: &mut Blob, seconds: u32, nanos: u32) -> Result<(), NoMemory>
    ensures { Appends result out.old out.new (stamp_text seconds nanos) }
{
    out.reserve(8)?;
    put_u32(out, seconds)?;
    put_u32(out, nanos)?;
    Ok(())
}
