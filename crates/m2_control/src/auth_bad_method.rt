//! The payload of AUTH_BAD_METHOD.

ghost use Rattle.std.specs.Prelude.{◌≡◌, ◌≤◌, length};
ghost use Rattle.m2_bytes.specs.Blob.{Appends};
ghost use Rattle.m2_control.specs.declared.fields.TheConstants.{MOST_LISTED};
ghost use Rattle.m2_control.specs.Outcome.{GivesRest};
ghost use Rattle.m2_control.specs.AuthBadMethod.{bare_auth_bad_method, auth_bad_method_at, auth_bad_method_text};

use crate::fault::ControlFault;
use crate::fields::{NumList, numbers, numbers_size, put_numbers};
use m2_bytes::{Blob, NoMemory, Reader, put_u32};
use std::alloc::Global;

/// Refuses a method, and names those that are accepted.
#[derive(Debug, Drop)]
pub struct AuthBadMethod {
    /// The method that was asked for.
    pub method: u32,
    /// A negative error number.
    pub outcome: i32,
    /// The methods that are accepted.
    pub methods: NumList,
    /// The connection modes that are accepted.
    pub modes: NumList,
}

impl AuthBadMethod {
    pub(crate) fn read(alloc: Global, r: &mut Reader<'_>) -> Result<AuthBadMethod, ControlFault>
        ensures { GivesRest bare_auth_bad_method result r.new (auth_bad_method_at r.old) }
    {
        let method = r.u32()?;
        let outcome = r.u32()?.cast_signed();
        let methods = numbers(alloc, r, 3)?;
        let modes = numbers(alloc, r, 4)?;
        Ok(AuthBadMethod {
            method,
            outcome,
            methods,
            modes,
        })
    }

    pub(crate) fn write(&self, out: &mut Blob) -> Result<(), NoMemory>
        requires methods { length self.now.methods.items ≤ MOST_LISTED }
        requires modes { length self.now.modes.items ≤ MOST_LISTED }
        ensures { Appends result out.old out.new (auth_bad_method_text self.now) }
    {
        let methods = self.methods.as_slice();
        let modes = self.modes.as_slice();
        out.reserve(8 + numbers_size(methods) + numbers_size(modes))?;
        put_u32(out, self.method)?;
        put_u32(out, self.outcome.cast_unsigned())?;
        put_numbers(out, methods)?;
        put_numbers(out, modes)?;
        Ok(())
    }
}
