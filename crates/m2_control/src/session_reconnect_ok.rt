//! The payload of SESSION_RECONNECT_OK.

ghost use Rattle.std.specs.Prelude.{◌≡◌, ◌≤◌, length};
ghost use Rattle.m2_bytes.specs.Blob.{Appends};
ghost use Rattle.m2_control.specs.Outcome.{GivesFront};
ghost use Rattle.m2_control.specs.SessionReconnectOk.{bare_session_reconnect_ok, session_reconnect_ok_at, session_reconnect_ok_text};

use crate::fault::ControlFault;
use crate::fields::bounded;
use m2_bytes::{Blob, NoMemory, Reader, put_u64};

/// Takes a session up again.
#[derive(Clone, Copy, Debug, PartialEq, Eq)]
pub struct SessionReconnectOk {
    /// The number of the last message that was accepted.
    pub seen: u64,
}

impl SessionReconnectOk {
    pub(crate) fn read(r: &mut Reader<'_>) -> Result<SessionReconnectOk, ControlFault>
        ensures { GivesFront bare_session_reconnect_ok result r.new (session_reconnect_ok_at r.old) }
    {
        let seen = bounded(r, 1)?;
        Ok(SessionReconnectOk { seen })
    }

    pub(crate) fn write(&self, out: &mut Blob) -> Result<(), NoMemory>
        ensures { Appends result out.old out.new (session_reconnect_ok_text self.now) }
    {
        put_u64(out, self.seen)
    }
}
