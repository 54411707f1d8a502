//! The payload of AUTH_SIGNATURE.

ghost use Rattle.std.specs.Prelude.{◌≡◌, ◌≤◌, length};
ghost use Rattle.m2_bytes.specs.Blob.{Appends};
ghost use Rattle.m2_control.specs.declared.fields.TheConstants.{SIGNATURE_BYTES};
ghost use Rattle.m2_control.specs.Outcome.{GivesRest};
ghost use Rattle.m2_control.specs.AuthSignature.{bare_auth_signature, auth_signature_at, auth_signature_text};

use crate::fault::ControlFault;
use crate::fields::signature;
use m2_bytes::{Blob, NoMemory, Reader};
use std::alloc::Global;

/// Signs all that was said before.
#[derive(Debug, Drop)]
pub struct AuthSignature {
    /// [`SIGNATURE_BYTES`](crate::SIGNATURE_BYTES) bytes; without authentication all are 0.
    pub signature: Blob,
}

impl AuthSignature {
    pub(crate) fn read(alloc: Global, r: &mut Reader<'_>) -> Result<AuthSignature, ControlFault>
        ensures { GivesRest bare_auth_signature result r.new (auth_signature_at r.old) }
    {
        let signature = signature(alloc, r)?;
        Ok(AuthSignature { signature })
    }

    pub(crate) fn write(&self, out: &mut Blob) -> Result<(), NoMemory>
        requires { length self.now.signature.bytes ≡ SIGNATURE_BYTES }
        ensures { Appends result out.old out.new (auth_signature_text self.now) }
    {
        out.push_all(self.signature.as_slice())
    }
}
