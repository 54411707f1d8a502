//! The payload of SESSION_RECONNECT.

ghost use Rattle.std.specs.Prelude.{◌≡◌, ◌≤◌, length};
ghost use Rattle.m2_bytes.specs.Blob.{Appends};
ghost use Rattle.m2_control.specs.Outcome.{GivesRest};
ghost use Rattle.m2_control.specs.SessionReconnect.{bare_session_reconnect, session_reconnect_at, session_reconnect_text};

use crate::fault::ControlFault;
use crate::fields::{addresses, bounded, cookie};
use m2_addr::AddrVec;
use m2_bytes::{Blob, NoMemory, Reader, put_u64};
use std::alloc::Global;

/// Asks to take a session up again.
#[derive(Debug, Drop)]
pub struct SessionReconnect {
    /// The addresses of the asker.
    pub addrs: AddrVec,
    /// The cookie of the client.
    pub client: u64,
    /// The cookie of the server.
    pub server: u64,
    /// The global number of the ask.
    pub global: u64,
    /// The connect number of the ask.
    pub connect: u64,
    /// The number of the last message that was accepted.
    pub seen: u64,
}

impl SessionReconnect {
    #[tactic(auto, using(crate::proofs::Ends::fails))]
    pub(crate) fn read(alloc: Global, r: &mut Reader<'_>) -> Result<SessionReconnect, ControlFault>
        ensures { GivesRest bare_session_reconnect result r.new (session_reconnect_at r.old) }
    {
        let addrs = addresses(alloc, r)?;
        let client = cookie(r, 2)?;
        let server = cookie(r, 3)?;
        let global = bounded(r, 4)?;
        let connect = bounded(r, 5)?;
        let seen = bounded(r, 6)?;
        Ok(SessionReconnect {
            addrs,
            client,
            server,
            global,
            connect,
            seen,
        })
    }

    pub(crate) fn write(&self, out: &mut Blob) -> Result<(), NoMemory>
        ensures { Appends result out.old out.new (session_reconnect_text self.now) }
    {
        out.reserve(40 + self.addrs.size())?;
        self.addrs.write(out)?;
        put_u64(out, self.client)?;
        put_u64(out, self.server)?;
        put_u64(out, self.global)?;
        put_u64(out, self.connect)?;
        put_u64(out, self.seen)?;
        Ok(())
    }
}
