//! The payload of KEEPALIVE2.

ghost use Rattle.std.specs.Prelude.{◌≡◌, ◌≤◌, length};
ghost use Rattle.m2_bytes.specs.Blob.{Appends};
ghost use Rattle.m2_control.specs.Outcome.{GivesFront};
ghost use Rattle.m2_control.specs.Keepalive.{bare_keepalive, keepalive_at, keepalive_text};

use crate::fault::ControlFault;
use crate::stamp::{put_stamp, read_stamp};
use m2_bytes::{Blob, NoMemory, Reader};

/// Asks whether the other side is there.
#[derive(Clone, Copy, Debug, PartialEq, Eq)]
pub struct Keepalive {
    /// The time of sending, in seconds.
    pub seconds: u32,
    /// And nanoseconds.
    pub nanos: u32,
}

impl Keepalive {
    pub(crate) fn read(r: &mut Reader<'_>) -> Result<Keepalive, ControlFault>
        ensures { GivesFront bare_keepalive result r.new (keepalive_at r.old) }
    {
        let (seconds, nanos) = read_stamp(r)?;
        Ok(Keepalive { seconds, nanos })
    }

    pub(crate) fn write(&self, out: &mut Blob) -> Result<(), NoMemory>
        ensures { Appends result out.old out.new (keepalive_text self.now) }
    {
        put_stamp(out, self.seconds, self.nanos)
    }
}
