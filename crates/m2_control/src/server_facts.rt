//! What a SERVER_IDENT says, read without memory.

ghost use Rattle.std.specs.Prelude.{◌≡◌};
ghost use Rattle.m2_frame.specs.declared.tag.Tag.{Tag};
ghost use Rattle.m2_control.specs.Control.{payload_of};
ghost use Rattle.m2_control.specs.ServerFacts.{GivesFacts, GivesFactsRest, facts_with};
ghost use Rattle.m2_control.specs.ServerIdent.{server_ident_at};

use crate::fault::ControlFault;
use crate::fields::main_address;
use crate::ident::Tail;
use m2_addr::Addr;
use m2_bytes::Reader;
use m2_frame::Tag;

/// What a SERVER_IDENT says, with its main address in place of all its addresses.
#[derive(Clone, Copy, Debug, PartialEq, Eq)]
pub struct ServerFacts {
    /// The main address of the accepter.
    pub main: Addr,
    /// The global id of the entity.
    pub gid: i64,
    /// The global number of the ident.
    pub global: u64,
    /// The features that are supported.
    pub supported: u64,
    /// The features that are required.
    pub required: u64,
    /// Bit 0 says that the session is lossy.
    pub flags: u64,
    /// The cookie; not 0 unless the session is lossy.
    pub cookie: u64,
}

/// The facts of the ident at the front.
#[tactic(auto, using(crate::proofs::FactLemmas::bad_tail))]
fn read_front(r: &mut Reader<'_>) -> Result<ServerFacts, ControlFault>
    ensures { GivesFactsRest result r.new (server_ident_at r.old) }
{
    let main = main_address(r)?;
    let tail = Tail::read(r, 2)?;
    Ok(facts_with(main, tail))
}

/// The main address, and what stands behind the addresses.
fn facts_with(main: Addr, tail: Tail) -> ServerFacts
    ensures { result ≡ facts_with main tail }
{
    ServerFacts {
        main,
        gid: tail.gid,
        global: tail.global,
        supported: tail.supported,
        required: tail.required,
        flags: tail.flags,
        cookie: tail.cookie,
    }
}

impl ServerFacts {
    /// Reads the payload of a SERVER_IDENT. It says what [`Control::read`](crate::Control::read)
    /// says of it, with the same fault, and takes no memory.
    #[tactic(auto, using(crate::proofs::FactLemmas::whole_facts, crate::proofs::FactLemmas::extra_facts, crate::proofs::FactLemmas::no_facts))]
    pub fn read(payload: &[u8]) -> Result<ServerFacts, ControlFault>
        ensures { GivesFacts result (payload_of Tag.ServerIdent payload.now) }
    {
        let mut r = Reader::new(payload);
        let facts = read_front(&mut r)?;
        if r.left() > 0 {
            return Err(ControlFault::Extra);
        }
        Ok(facts)
    }
}
