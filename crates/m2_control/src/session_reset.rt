//! The payload of SESSION_RESET.

ghost use Rattle.std.specs.Prelude.{◌≡◌, ◌≤◌, length};
ghost use Rattle.m2_bytes.specs.Blob.{Appends};
ghost use Rattle.m2_control.specs.Outcome.{GivesFront};
ghost use Rattle.m2_control.specs.SessionReset.{bare_session_reset, session_reset_at, session_reset_text};

use crate::fault::ControlFault;
use crate::fields::flag;
use m2_bytes::{Blob, NoMemory, Reader, put_u8};

/// Says that there is no such session.
#[derive(Clone, Copy, Debug, PartialEq, Eq)]
pub struct SessionReset {
    /// Whether all that was posted is to be thrown away.
    pub full: bool,
}

impl SessionReset {
    pub(crate) fn read(r: &mut Reader<'_>) -> Result<SessionReset, ControlFault>
        ensures { GivesFront bare_session_reset result r.new (session_reset_at r.old) }
    {
        let full = flag(r, 1)?;
        Ok(SessionReset { full })
    }

    pub(crate) fn write(&self, out: &mut Blob) -> Result<(), NoMemory>
        ensures { Appends result out.old out.new (session_reset_text self.now) }
    {
        put_u8(out, u8::from(self.full))
    }
}
