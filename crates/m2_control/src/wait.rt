//! The payload of WAIT.

ghost use Rattle.std.specs.Prelude.{◌≡◌, ◌≤◌, length};
ghost use Rattle.m2_bytes.specs.Blob.{Appends};
ghost use Rattle.m2_control.specs.Wait.{wait_text};

use m2_bytes::{Blob, NoMemory};

/// Says that the other connection goes first.
#[derive(Clone, Copy, Debug, PartialEq, Eq)]
pub struct Wait;

impl Wait {
    pub(crate) fn write(&self, _out: &mut Blob) -> Result<(), NoMemory>
        ensures { Appends result _out.old _out.new (wait_text self.now) }
    {
        Ok(())
    }
}
