//! The payload of SESSION_RETRY_GLOBAL.

ghost use Rattle.std.specs.Prelude.{◌≡◌, ◌≤◌, length};
ghost use Rattle.m2_bytes.specs.Blob.{Appends};
ghost use Rattle.m2_control.specs.Outcome.{GivesFront};
ghost use Rattle.m2_control.specs.SessionRetryGlobal.{bare_session_retry_global, session_retry_global_at, session_retry_global_text};

use crate::fault::ControlFault;
use crate::fields::bounded;
use m2_bytes::{Blob, NoMemory, Reader, put_u64};

/// Says that the global number is too low.
#[derive(Clone, Copy, Debug, PartialEq, Eq)]
pub struct SessionRetryGlobal {
    /// The global number that is kept.
    pub global: u64,
}

impl SessionRetryGlobal {
    pub(crate) fn read(r: &mut Reader<'_>) -> Result<SessionRetryGlobal, ControlFault>
        ensures { GivesFront bare_session_retry_global result r.new (session_retry_global_at r.old) }
    {
        let global = bounded(r, 1)?;
        Ok(SessionRetryGlobal { global })
    }

    pub(crate) fn write(&self, out: &mut Blob) -> Result<(), NoMemory>
        ensures { Appends result out.old out.new (session_retry_global_text self.now) }
    {
        put_u64(out, self.global)
    }
}
