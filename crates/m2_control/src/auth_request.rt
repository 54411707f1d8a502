//! The payload of AUTH_REQUEST.

ghost use Rattle.std.specs.Prelude.{◌≡◌, ◌≤◌, length};
ghost use Rattle.m2_bytes.specs.Blob.{Appends};
ghost use Rattle.m2_control.specs.declared.fields.TheConstants.{MOST_LISTED, MOST_BYTES};
ghost use Rattle.m2_control.specs.Outcome.{GivesRest};
ghost use Rattle.m2_control.specs.AuthRequest.{bare_auth_request, auth_request_at, auth_request_text};

use crate::fault::ControlFault;
use crate::fields::{NumList, numbers, numbers_size, put_numbers, put_string, string, string_size};
use m2_bytes::{Blob, NoMemory, Reader, put_u32};
use std::alloc::Global;

/// Asks for a method of authentication and the connection modes to choose from.
#[derive(Debug, Drop)]
pub struct AuthRequest {
    /// 1 is none.
    pub method: u32,
    /// Connection modes in order of preference; 1 is crc.
    pub modes: NumList,
    /// What the method says; not looked into.
    pub payload: Blob,
}

impl AuthRequest {
    pub(crate) fn read(alloc: Global, r: &mut Reader<'_>) -> Result<AuthRequest, ControlFault>
        ensures { GivesRest bare_auth_request result r.new (auth_request_at r.old) }
    {
        let method = r.u32()?;
        let modes = numbers(alloc, r, 2)?;
        let payload = string(alloc, r, 3)?;
        Ok(AuthRequest {
            method,
            modes,
            payload,
        })
    }

    pub(crate) fn write(&self, out: &mut Blob) -> Result<(), NoMemory>
        requires modes { length self.now.modes.items ≤ MOST_LISTED }
        requires payload { length self.now.payload.bytes ≤ MOST_BYTES }
        ensures { Appends result out.old out.new (auth_request_text self.now) }
    {
        let modes = self.modes.as_slice();
        let payload = self.payload.as_slice();
        out.reserve(4 + numbers_size(modes) + string_size(payload))?;
        put_u32(out, self.method)?;
        put_numbers(out, modes)?;
        put_string(out, payload)?;
        Ok(())
    }
}
