//! The payload of AUTH_DONE.

ghost use Rattle.std.specs.Prelude.{◌≡◌, ◌≤◌, length};
ghost use Rattle.m2_bytes.specs.Blob.{Appends};
ghost use Rattle.m2_control.specs.declared.fields.TheConstants.{MOST_BYTES};
ghost use Rattle.m2_control.specs.Outcome.{GivesRest};
ghost use Rattle.m2_control.specs.AuthDone.{bare_auth_done, auth_done_at, auth_done_text};

use crate::fault::ControlFault;
use crate::fields::{put_string, string};
use m2_bytes::{Blob, NoMemory, Reader, put_u32, put_u64};
use std::alloc::Global;

/// Ends the authentication.
#[derive(Debug, Drop)]
pub struct AuthDone {
    /// The global id of the entity.
    pub global_id: u64,
    /// The connection mode that was chosen.
    pub mode: u32,
    /// What the method says; not looked into.
    pub payload: Blob,
}

impl AuthDone {
    pub(crate) fn read(alloc: Global, r: &mut Reader<'_>) -> Result<AuthDone, ControlFault>
        ensures { GivesRest bare_auth_done result r.new (auth_done_at r.old) }
    {
        let global_id = r.u64()?;
        let mode = r.u32()?;
        let payload = string(alloc, r, 3)?;
        Ok(AuthDone {
            global_id,
            mode,
            payload,
        })
    }

    pub(crate) fn write(&self, out: &mut Blob) -> Result<(), NoMemory>
        requires { length self.now.payload.bytes ≤ MOST_BYTES }
        ensures { Appends result out.old out.new (auth_done_text self.now) }
    {
        out.reserve(16 + self.payload.len())?;
        put_u64(out, self.global_id)?;
        put_u32(out, self.mode)?;
        put_string(out, self.payload.as_slice())?;
        Ok(())
    }
}
