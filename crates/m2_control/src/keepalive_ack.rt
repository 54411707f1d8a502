//! The payload of KEEPALIVE2_ACK.

ghost use Rattle.std.specs.Prelude.{◌≡◌, ◌≤◌, length};
ghost use Rattle.m2_bytes.specs.Blob.{Appends};
ghost use Rattle.m2_control.specs.Outcome.{GivesFront};
ghost use Rattle.m2_control.specs.KeepaliveAck.{bare_keepalive_ack, keepalive_ack_at, keepalive_ack_text};

use crate::fault::ControlFault;
use crate::stamp::{put_stamp, read_stamp};
use m2_bytes::{Blob, NoMemory, Reader};

/// Answers a KEEPALIVE2.
#[derive(Clone, Copy, Debug, PartialEq, Eq)]
pub struct KeepaliveAck {
    /// The time of sending of what is answered, in seconds.
    pub seconds: u32,
    /// And nanoseconds.
    pub nanos: u32,
}

impl KeepaliveAck {
    pub(crate) fn read(r: &mut Reader<'_>) -> Result<KeepaliveAck, ControlFault>
        ensures { GivesFront bare_keepalive_ack result r.new (keepalive_ack_at r.old) }
    {
        let (seconds, nanos) = read_stamp(r)?;
        Ok(KeepaliveAck { seconds, nanos })
    }

    pub(crate) fn write(&self, out: &mut Blob) -> Result<(), NoMemory>
        ensures { Appends result out.old out.new (keepalive_ack_text self.now) }
    {
        put_stamp(out, self.seconds, self.nanos)
    }
}
