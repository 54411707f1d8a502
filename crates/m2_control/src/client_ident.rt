//! The payload of CLIENT_IDENT.

ghost use Rattle.std.specs.Prelude.{◌≡◌, ◌≤◌, length};
ghost use Rattle.m2_bytes.specs.Blob.{Appends};
ghost use Rattle.m2_control.specs.Outcome.{GivesRest};
ghost use Rattle.m2_control.specs.ClientIdent.{bare_client_ident, client_ident_at, client_ident_text};

use crate::fault::ControlFault;
use crate::fields::{addresses, put_words, target};
use crate::ident::Tail;
use m2_addr::{Addr, AddrVec, write_addr};
use m2_bytes::{Blob, NoMemory, Reader};
use std::alloc::Global;

/// Asks for a new session.
#[derive(Debug, Drop)]
pub struct ClientIdent {
    /// The addresses of the asker.
    pub addrs: AddrVec,
    /// The address that the asker wants to reach.
    pub target: Addr,
    /// The global id of the entity.
    pub gid: i64,
    /// The global number of the ident.
    pub global: u64,
    /// The features that are supported.
    pub supported: u64,
    /// The features that are required.
    pub required: u64,
    /// Bit 0 says that the session is lossy.
    pub flags: u64,
    /// The cookie; not 0 unless the session is lossy.
    pub cookie: u64,
}

impl ClientIdent {
    #[tactic(auto, using(crate::proofs::Ends::fails))]
    pub(crate) fn read(alloc: Global, r: &mut Reader<'_>) -> Result<ClientIdent, ControlFault>
        ensures { GivesRest bare_client_ident result r.new (client_ident_at r.old) }
    {
        let addrs = addresses(alloc, r)?;
        let target = target(r)?;
        let tail = Tail::read(r, 3)?;
        Ok(ClientIdent {
            addrs,
            target,
            gid: tail.gid,
            global: tail.global,
            supported: tail.supported,
            required: tail.required,
            flags: tail.flags,
            cookie: tail.cookie,
        })
    }

    pub(crate) fn write(&self, out: &mut Blob) -> Result<(), NoMemory>
        ensures { Appends result out.old out.new (client_ident_text self.now) }
    {
        out.reserve(83 + self.addrs.size())?;
        self.addrs.write(out)?;
        write_addr(&self.target, out)?;
        put_words(
            out,
            &[
                self.gid.cast_unsigned(),
                self.global,
                self.supported,
                self.required,
                self.flags,
                self.cookie,
            ],
        )?;
        Ok(())
    }
}
