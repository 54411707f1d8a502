//! The payload of HELLO.

ghost use Rattle.std.specs.Prelude.{◌≡◌, ◌≤◌, length};
ghost use Rattle.m2_bytes.specs.Blob.{Appends};
ghost use Rattle.m2_addr.specs.Addr.{IsWellFormed};
ghost use Rattle.m2_control.specs.Outcome.{GivesRest};
ghost use Rattle.m2_control.specs.Hello.{bare_hello, hello_at, hello_text};

use crate::fault::ControlFault;
use crate::fields::address;
use m2_addr::AnyAddr;
use m2_bytes::{Blob, NoMemory, Reader, put_u8};
use std::alloc::Global;

/// What each side says first: which entity it is, and under which address it sees the other.
#[derive(Debug, Drop)]
pub struct Hello {
    /// 1 MON, 2 MDS, 4 OSD, 8 CLIENT, 16 MGR; any byte is read.
    pub entity: u8,
    /// The address of the other side.
    pub seen: AnyAddr,
}

impl Hello {
    pub(crate) fn read(alloc: Global, r: &mut Reader<'_>) -> Result<Hello, ControlFault>
        ensures { GivesRest bare_hello result r.new (hello_at r.old) }
    {
        let entity = r.u8()?;
        let seen = address(alloc, r)?;
        Ok(Hello { entity, seen })
    }

    #[tactic(auto, using(crate::proofs::Sizes::short_address))]
    pub(crate) fn write(&self, out: &mut Blob) -> Result<(), NoMemory>
        requires { IsWellFormed self.now.seen }
        ensures { Appends result out.old out.new (hello_text self.now) }
    {
        out.reserve(1 + self.seen.size())?;
        put_u8(out, self.entity)?;
        self.seen.write(out)?;
        Ok(())
    }
}
