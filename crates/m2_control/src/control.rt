//! Every control payload, and how one is read and written.

ghost use Rattle.std.specs.Prelude.{◌≡◌, ◌≢◌, ◌≤◌, ℕ, List, false, IfOk, Ok, Err};
ghost use Rattle.m2_bytes.specs.Blob.{Appends};
ghost use Rattle.m2_addr.specs.Grammar.{IsBytes};
ghost use Rattle.m2_frame.specs.declared.tag.Tag.{Tag};
ghost use Rattle.m2_frame.specs.declared.tag.TheConstants.{FIRST_TAG, LAST_TAG};
ghost use Rattle.m2_control.specs.declared.control.Control.{Control};
ghost use Rattle.m2_control.specs.Outcome.{Gives, GivesFront, GivesRest};
ghost use Rattle.m2_frame.specs.Tags.{tag_number};
ghost use Rattle.m2_control.specs.Control.{Spells, IsWritable, bare, tag_of, text_of, fields_at, payload_of, takes_memory};

use crate::ack::Ack;
use crate::auth_bad_method::AuthBadMethod;
use crate::auth_done::AuthDone;
use crate::auth_request::AuthRequest;
use crate::auth_signature::AuthSignature;
use crate::client_ident::ClientIdent;
use crate::fault::ControlFault;
use crate::hello::Hello;
use crate::ident_missing_features::IdentMissingFeatures;
use crate::keepalive::Keepalive;
use crate::keepalive_ack::KeepaliveAck;
use crate::server_ident::ServerIdent;
use crate::session_reconnect::SessionReconnect;
use crate::session_reconnect_ok::SessionReconnectOk;
use crate::session_reset::SessionReset;
use crate::session_retry::SessionRetry;
use crate::session_retry_global::SessionRetryGlobal;
use crate::wait::Wait;
use m2_bytes::{Blob, NoMemory, Reader};
use m2_frame::Tag;
use std::alloc::Global;

/// The payload of a control frame, by its tag.
#[derive(Debug, Drop)]
pub enum Control {
    Hello(Hello),
    AuthRequest(AuthRequest),
    AuthBadMethod(AuthBadMethod),
    AuthDone(AuthDone),
    AuthSignature(AuthSignature),
    ClientIdent(ClientIdent),
    ServerIdent(ServerIdent),
    IdentMissingFeatures(IdentMissingFeatures),
    SessionReconnect(SessionReconnect),
    SessionReset(SessionReset),
    SessionRetry(SessionRetry),
    SessionRetryGlobal(SessionRetryGlobal),
    SessionReconnectOk(SessionReconnectOk),
    Wait(Wait),
    Keepalive(Keepalive),
    KeepaliveAck(KeepaliveAck),
    Ack(Ack),
}

/// The fields, at the front of what is left, of a payload that takes no memory.
fn read_plain_fields(tag: Tag, r: &mut Reader<'_>) -> Result<Control, ControlFault>
    requires { takes_memory tag ≡ false }
    ensures exact { GivesFront (λ c. c) result r.new (fields_at tag r.old) }
    ensures bare { IfOk result (λ c. bare c ≡ c) }
{
    match tag {
        Tag::IdentMissingFeatures => Ok(Control::IdentMissingFeatures(IdentMissingFeatures::read(
            r,
        )?)),
        Tag::SessionReset => Ok(Control::SessionReset(SessionReset::read(r)?)),
        Tag::SessionRetry => Ok(Control::SessionRetry(SessionRetry::read(r)?)),
        Tag::SessionRetryGlobal => Ok(Control::SessionRetryGlobal(SessionRetryGlobal::read(r)?)),
        Tag::SessionReconnectOk => Ok(Control::SessionReconnectOk(SessionReconnectOk::read(r)?)),
        Tag::Wait => Ok(Control::Wait(Wait)),
        Tag::Keepalive => Ok(Control::Keepalive(Keepalive::read(r)?)),
        Tag::KeepaliveAck => Ok(Control::KeepaliveAck(KeepaliveAck::read(r)?)),
        Tag::Ack => Ok(Control::Ack(Ack::read(r)?)),
        _ => Err(ControlFault::NotNegotiated),
    }
}

/// The fields of a payload at the front of what is left.
#[tactic(auto, using(crate::proofs::Ends::plain_given, crate::proofs::Ends::plain_never, crate::proofs::Memory::fields_never))]
fn read_fields(alloc: Global, tag: Tag, r: &mut Reader<'_>) -> Result<Control, ControlFault>
    ensures exact { GivesRest bare result r.new (fields_at tag r.old) }
    ensures memory { takes_memory tag ≡ false → result ≢ Err ControlFault.NoMemory }
{
    match tag {
        Tag::Hello => Ok(Control::Hello(Hello::read(alloc, r)?)),
        Tag::AuthRequest => Ok(Control::AuthRequest(AuthRequest::read(alloc, r)?)),
        Tag::AuthBadMethod => Ok(Control::AuthBadMethod(AuthBadMethod::read(alloc, r)?)),
        Tag::AuthDone => Ok(Control::AuthDone(AuthDone::read(alloc, r)?)),
        Tag::AuthSignature => Ok(Control::AuthSignature(AuthSignature::read(alloc, r)?)),
        Tag::ClientIdent => Ok(Control::ClientIdent(ClientIdent::read(alloc, r)?)),
        Tag::ServerIdent => Ok(Control::ServerIdent(ServerIdent::read(alloc, r)?)),
        Tag::SessionReconnect => Ok(Control::SessionReconnect(SessionReconnect::read(alloc, r)?)),
        plain => read_plain_fields(plain, r),
    }
}

/// The payload of a tag, which ends with its last field.
#[tactic(auto, using(crate::proofs::Ends::whole_fails))]
fn read_whole(alloc: Global, tag: Tag, payload: &[u8]) -> Result<Control, ControlFault>
    ensures exact { Gives bare result (payload_of tag payload.now) }
    ensures memory { takes_memory tag ≡ false → result ≢ Err ControlFault.NoMemory }
    ensures bytes { IsBytes payload.now }
{
    let mut r = Reader::new(payload);
    let control = read_fields(alloc, tag, &mut r)?;
    if r.left() > 0 {
        return Err(ControlFault::Extra);
    }
    Ok(control)
}

/// The payload of a tag, and what is known of it.
fn read_tagged(alloc: Global, tag: Tag, payload: &[u8]) -> Result<Control, ControlFault>
    ensures writable { IfOk result IsWritable }
    ensures found { IfOk result (λ c. Spells (bare c) payload.now × (tag_of (bare c) ≡ tag)) }
    ensures only { (c : Control) → Spells c payload.now → tag_of c ≡ tag → Gives bare result (Ok (bare c)) }
    ensures exact { Gives bare result (payload_of tag payload.now) }
    ensures memory { takes_memory tag ≡ false → result ≢ Err ControlFault.NoMemory }
{
    read_whole(alloc, tag, payload)
}

impl Control {
    /// Reads the payload of a control frame with this tag, which isn't that of a message.
    pub fn read(alloc: Global, tag: u8, payload: &[u8]) -> Result<Control, ControlFault>
        requires known { (FIRST_TAG ≤ tag) × (tag ≤ LAST_TAG) }
        requires control { tag ≢ tag_number Tag.Message }
        // What is read is spelled so, and has this tag.
        ensures found { IfOk result (λ c. Spells (bare c) payload.now × (tag_number (tag_of (bare c)) ≡ tag)) }
        // What is spelled so is read, unless memory runs out.
        ensures only { (c : Control) → Spells c payload.now → tag_number (tag_of c) ≡ tag → Gives bare result (Ok (bare c)) }
        // What is read can be written.
        ensures writable { IfOk result IsWritable }
        // Which fault it is: the first in the payload.
        ensures exact { (t : Tag) → tag_number t ≡ tag → Gives bare result (payload_of t payload.now) }
        // A payload without lists, byte strings and addresses never wants memory.
        ensures memory { (t : Tag) → tag_number t ≡ tag → takes_memory t ≡ false → result ≢ Err ControlFault.NoMemory }
    {
        match Tag::of(tag) {
            Some(known) => read_tagged(alloc, known, payload),
            None => Err(ControlFault::NotNegotiated),
        }
    }

    /// Reads the payload of a frame whose payload has no list, byte string or address. It says what
    /// [`Control::read`] says of it, and takes no memory.
    pub fn read_plain(tag: Tag, payload: &[u8]) -> Result<Control, ControlFault>
        requires { takes_memory tag ≡ false }
        ensures { result ≡ payload_of tag payload.now }
    {
        let mut r = Reader::new(payload);
        let control = read_plain_fields(tag, &mut r)?;
        if r.left() > 0 {
            return Err(ControlFault::Extra);
        }
        Ok(control)
    }

    /// The number of its tag.
    pub fn tag(&self) -> u8
        ensures { result ≡ tag_number (tag_of self.now) }
    {
        let tag = match self {
            Control::Hello(_) => Tag::Hello,
            Control::AuthRequest(_) => Tag::AuthRequest,
            Control::AuthBadMethod(_) => Tag::AuthBadMethod,
            Control::AuthDone(_) => Tag::AuthDone,
            Control::AuthSignature(_) => Tag::AuthSignature,
            Control::ClientIdent(_) => Tag::ClientIdent,
            Control::ServerIdent(_) => Tag::ServerIdent,
            Control::IdentMissingFeatures(_) => Tag::IdentMissingFeatures,
            Control::SessionReconnect(_) => Tag::SessionReconnect,
            Control::SessionReset(_) => Tag::SessionReset,
            Control::SessionRetry(_) => Tag::SessionRetry,
            Control::SessionRetryGlobal(_) => Tag::SessionRetryGlobal,
            Control::SessionReconnectOk(_) => Tag::SessionReconnectOk,
            Control::Wait(_) => Tag::Wait,
            Control::Keepalive(_) => Tag::Keepalive,
            Control::KeepaliveAck(_) => Tag::KeepaliveAck,
            Control::Ack(_) => Tag::Ack,
        };
        tag.number()
    }

    /// Appends the payload.
    pub fn write(&self, out: &mut Blob) -> Result<(), NoMemory>
        requires { IsWritable self.now }
        ensures { Appends result out.old out.new (text_of self.now) }
    {
        match self {
            Control::Hello(payload) => payload.write(out),
            Control::AuthRequest(payload) => payload.write(out),
            Control::AuthBadMethod(payload) => payload.write(out),
            Control::AuthDone(payload) => payload.write(out),
            Control::AuthSignature(payload) => payload.write(out),
            Control::ClientIdent(payload) => payload.write(out),
            Control::ServerIdent(payload) => payload.write(out),
            Control::IdentMissingFeatures(payload) => payload.write(out),
            Control::SessionReconnect(payload) => payload.write(out),
            Control::SessionReset(payload) => payload.write(out),
            Control::SessionRetry(payload) => payload.write(out),
            Control::SessionRetryGlobal(payload) => payload.write(out),
            Control::SessionReconnectOk(payload) => payload.write(out),
            Control::Wait(payload) => payload.write(out),
            Control::Keepalive(payload) => payload.write(out),
            Control::KeepaliveAck(payload) => payload.write(out),
            Control::Ack(payload) => payload.write(out),
        }
    }
}
