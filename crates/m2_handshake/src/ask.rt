//! What an authed acceptor is asked.

ghost use Rattle.std.specs.Prelude.{◌≡◌};
ghost use Rattle.m2_control.specs.Control.{bare, tag_of};
ghost use Rattle.m2_control.specs.ClientIdent.{bare_client_ident};
ghost use Rattle.m2_control.specs.SessionReconnect.{bare_session_reconnect};
ghost use Rattle.m2_frame.specs.Tags.{tag_number};
ghost use Rattle.m2_control.specs.declared.control.Control.TheVariants as controls;
ghost use Rattle.m2_frame.specs.Frame.{parts};
ghost use Rattle.m2_handshake.specs.declared.fault.HalfFault.TheVariants as faults;
ghost use Rattle.m2_handshake.specs.Reading.{IsControlTag, payload_in};
ghost use Rattle.m2_handshake.specs.Asks.{GivesAsk, ask_in, asked, asked_of, known_main, same_addr};

use crate::fault::HalfFault;
use crate::halt::Halt;
use crate::reaction::read_control;
use m2_addr::{Addr, AddrFault};
use m2_control::{ClientIdent, Control, ControlFault, SessionReconnect};
use m2_frame::{Frame, Tag};
use std::alloc::Global;

/// What an opener asks for once both sides have signed.
#[derive(Debug, Drop)]
pub enum Ask {
    /// A new session.
    Ident(ClientIdent),
    /// A session that it still has.
    Reconnect(SessionReconnect),
}

/// The answer of [`Half::ask`](crate::Half::ask).
#[derive(Debug, Drop)]
pub enum AskStep {
    /// What was fed gives no ask and no fault, or the reply to the last ask is still owed.
    NotYet,
    /// The next ask; the half waits for its reply.
    Asked(Ask),
    /// The socket is to be closed without a word. Each later answer is the same.
    Fault(HalfFault),
    /// Memory ran out. A later call goes on from there.
    NoMemory,
}

/// Whether two addresses are the same.
fn is_same(a: &Addr, b: &Addr) -> bool
    ensures { result ≡ same_addr a.now b.now }
{
    a.kind == b.kind && a.nonce == b.nonce && a.ip == b.ip && a.port == b.port
}

/// The main address of an ask, which is that of the first ask.
fn known_peer(peer: Option<Addr>, main: Result<Addr, AddrFault>) -> Result<Addr, HalfFault>
    ensures { result ≡ known_main peer main }
{
    match main {
        Err(fault) => Err(HalfFault::Control(ControlFault::Address(fault))),
        Ok(address) => match peer {
            None => Ok(address),
            Some(first) => {
                if is_same(&first, &address) {
                    Ok(address)
                } else {
                    Err(HalfFault::UnknownPeer)
                }
            }
        },
    }
}

/// What an ident asks.
#[tactic(auto, using(m2_control::proofs::Raised::main_same))]
fn from_ident(peer: Option<Addr>, ident: ClientIdent) -> Result<(Ask, Addr), Halt>
    ensures { GivesAsk result (asked peer (controls.ClientIdent (bare_client_ident ident))) }
{
    let main = known_peer(peer, ident.addrs.main())?;
    Ok((Ask::Ident(ident), main))
}

/// What a reconnect asks.
#[tactic(auto, using(m2_control::proofs::Raised::main_same))]
fn from_reconnect(peer: Option<Addr>, reconnect: SessionReconnect) -> Result<(Ask, Addr), Halt>
    ensures { GivesAsk result (asked peer (controls.SessionReconnect (bare_session_reconnect reconnect))) }
{
    let main = known_peer(peer, reconnect.addrs.main())?;
    Ok((Ask::Reconnect(reconnect), main))
}

/// What a payload asks.
fn from_control(peer: Option<Addr>, control: Control) -> Result<(Ask, Addr), Halt>
    ensures { GivesAsk result (asked peer (bare control)) }
{
    match control {
        Control::ClientIdent(ident) => from_ident(peer, ident),
        Control::SessionReconnect(reconnect) => from_reconnect(peer, reconnect),
        other => Err(Halt::Fault(HalfFault::Unexpected { tag: other.tag() })),
    }
}

/// What a payload of this tag asks.
fn ask_of(alloc: Global, tag: Tag, peer: Option<Addr>, payload: &[u8]) -> Result<(Ask, Addr), Halt>
    requires { IsControlTag tag }
    ensures { GivesAsk result (asked_of peer (payload_in tag payload.now)) }
{
    let control = read_control(alloc, tag, payload)?;
    from_control(peer, control)
}

/// What a whole frame asks, and under which main address: its tag is looked at, and then its payload
/// is read.
pub fn read_ask(alloc: Global, peer: Option<Addr>, frame: &Frame) -> Result<(Ask, Addr), Halt>
    ensures { GivesAsk result (ask_in peer (parts frame.now)) }
{
    let payload = frame.first.as_slice();
    if frame.tag == Tag::ClientIdent.number() {
        ask_of(alloc, Tag::ClientIdent, peer, payload)
    } else if frame.tag == Tag::SessionReconnect.number() {
        ask_of(alloc, Tag::SessionReconnect, peer, payload)
    } else {
        Err(Halt::Fault(HalfFault::Unexpected { tag: frame.tag }))
    }
}
