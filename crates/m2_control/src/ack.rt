//! The payload of ACK.

ghost use Rattle.std.specs.Prelude.{◌≡◌, ◌≤◌, length};
ghost use Rattle.m2_bytes.specs.Blob.{Appends};
ghost use Rattle.m2_control.specs.Outcome.{GivesFront};
ghost use Rattle.m2_control.specs.Ack.{bare_ack, ack_at, ack_text};

use crate::fault::ControlFault;
use crate::fields::bounded;
use m2_bytes::{Blob, NoMemory, Reader, put_u64};

/// Acknowledges messages.
#[derive(Clone, Copy, Debug, PartialEq, Eq)]
pub struct Ack {
    /// The number of the last message that was accepted.
    pub seen: u64,
}

impl Ack {
    pub(crate) fn read(r: &mut Reader<'_>) -> Result<Ack, ControlFault>
        ensures { GivesFront bare_ack result r.new (ack_at r.old) }
    {
        let seen = bounded(r, 1)?;
        Ok(Ack { seen })
    }

    pub(crate) fn write(&self, out: &mut Blob) -> Result<(), NoMemory>
        ensures { Appends result out.old out.new (ack_text self.now) }
    {
        put_u64(out, self.seen)
    }
}
