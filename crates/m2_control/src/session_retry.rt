//! The payload of SESSION_RETRY.

ghost use Rattle.std.specs.Prelude.{◌≡◌, ◌≤◌, length};
ghost use Rattle.m2_bytes.specs.Blob.{Appends};
ghost use Rattle.m2_control.specs.Outcome.{GivesFront};
ghost use Rattle.m2_control.specs.SessionRetry.{bare_session_retry, session_retry_at, session_retry_text};

use crate::fault::ControlFault;
use crate::fields::bounded;
use m2_bytes::{Blob, NoMemory, Reader, put_u64};

/// Says that the connect number is too low.
#[derive(Clone, Copy, Debug, PartialEq, Eq)]
pub struct SessionRetry {
    /// The connect number that is kept.
    pub connect: u64,
}

impl SessionRetry {
    pub(crate) fn read(r: &mut Reader<'_>) -> Result<SessionRetry, ControlFault>
        ensures { GivesFront bare_session_retry result r.new (session_retry_at r.old) }
    {
        let connect = bounded(r, 1)?;
        Ok(SessionRetry { connect })
    }

    pub(crate) fn write(&self, out: &mut Blob) -> Result<(), NoMemory>
        ensures { Appends result out.old out.new (session_retry_text self.now) }
    {
        put_u64(out, self.connect)
    }
}
