//! The payload of SERVER_IDENT.

ghost use Rattle.std.specs.Prelude.{◌≡◌, ◌≤◌, length};
ghost use Rattle.m2_bytes.specs.Blob.{Appends};
ghost use Rattle.m2_control.specs.Outcome.{GivesRest};
ghost use Rattle.m2_control.specs.ServerIdent.{bare_server_ident, server_ident_at, server_ident_text};

use crate::fault::ControlFault;
use crate::fields::{addresses, put_words};
use crate::ident::Tail;
use m2_addr::AddrVec;
use m2_bytes::{Blob, NoMemory, Reader};
use std::alloc::Global;

/// Accepts a new session.
#[derive(Debug, Drop)]
pub struct ServerIdent {
    /// The addresses of the accepter.
    pub addrs: AddrVec,
    /// The global id of the entity.
    pub gid: i64,
    /// The global number of the ident.
    pub global: u64,
    /// The features that are supported.
    pub supported: u64,
    /// The features that are required.
    pub required: u64,
    /// Bit 0 says that the session is lossy.
    pub flags: u64,
    /// The cookie; not 0 unless the session is lossy.
    pub cookie: u64,
}

impl ServerIdent {
    #[tactic(auto, using(crate::proofs::Ends::fails))]
    pub(crate) fn read(alloc: Global, r: &mut Reader<'_>) -> Result<ServerIdent, ControlFault>
        ensures { GivesRest bare_server_ident result r.new (server_ident_at r.old) }
    {
        let addrs = addresses(alloc, r)?;
        let tail = Tail::read(r, 2)?;
        Ok(ServerIdent {
            addrs,
            gid: tail.gid,
            global: tail.global,
            supported: tail.supported,
            required: tail.required,
            flags: tail.flags,
            cookie: tail.cookie,
        })
    }

    pub(crate) fn write(&self, out: &mut Blob) -> Result<(), NoMemory>
        ensures { Appends result out.old out.new (server_ident_text self.now) }
    {
        out.reserve(48 + self.addrs.size())?;
        self.addrs.write(out)?;
        put_words(
            out,
            &[
                self.gid.cast_unsigned(),
                self.global,
                self.supported,
                self.required,
                self.flags,
                self.cookie,
            ],
        )?;
        Ok(())
    }
}
