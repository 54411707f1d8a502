//! What a frame brings while the two sides authenticate.

ghost use Rattle.std.specs.Prelude.{◌≡◌, ◌==◌, IfOk};
ghost use Rattle.std.specs.List.{list_all};
ghost use Rattle.m2_control.specs.Control.{bare, tag_of};
ghost use Rattle.m2_frame.specs.Tags.{tag_number};
ghost use Rattle.m2_frame.specs.Frame.{parts};
ghost use Rattle.m2_handshake.specs.Half.{GivesTurn};
ghost use Rattle.m2_handshake.specs.Reading.{GivesControl, IsControlTag, payload_in};
ghost use Rattle.m2_handshake.specs.Steps.{after, after_frame, awaited_tag, is_served, is_unsigned, unawaited};
ghost use Rattle.m2_handshake.specs.declared.fault.HalfFault.TheVariants as faults;
ghost use Rattle.m2_handshake.specs.declared.halt.Halt.TheVariants as halts;
ghost use Rattle.m2_handshake.specs.declared.stage.Awaited.TheVariants as awaits;

use crate::fault::HalfFault;
use crate::halt::Halt;
use crate::stage::{Awaited, HalfSide};
use crate::texts::{CRC, NONE, put_bad_method, put_done, put_request, put_signature};
use m2_bytes::Blob;
use m2_control::{AuthRequest, Control, ControlFault, SIGNATURE_BYTES};
use m2_frame::{Frame, Tag};
use m2_policy::AuthPayload;
use std::alloc::Global;

/// What a half does with an awaited frame.
#[derive(Debug, Drop)]
pub enum Turn {
    /// It writes this text, and waits for that frame.
    Says(Awaited, Blob),
    /// It waits for that frame.
    Listens(Awaited),
    /// Both sides have signed.
    Signs,
}

/// The tag of the frame that is waited for.
fn tag_of(awaited: Awaited) -> Tag
    ensures exact { result ≡ awaited_tag awaited }
    ensures control { IsControlTag result }
{
    match awaited {
        Awaited::Hello => Tag::Hello,
        Awaited::Request => Tag::AuthRequest,
        Awaited::Done => Tag::AuthDone,
        Awaited::Signature => Tag::AuthSignature,
    }
}

/// The payload of a control frame.
pub fn read_control(alloc: Global, tag: Tag, payload: &[u8]) -> Result<Control, Halt>
    requires { IsControlTag tag }
    ensures { GivesControl result (payload_in tag payload.now) }
{
    match Control::read(alloc, tag.number(), payload) {
        Ok(control) => Ok(control),
        Err(ControlFault::NoMemory) => Err(Halt::NoMemory),
        Err(fault) => Err(Halt::Fault(HalfFault::Control(fault))),
    }
}

/// Whether the method is none, and crc is among the modes.
fn serves(request: &AuthRequest) -> bool
    ensures { result ≡ is_served request.now }
{
    request.method == NONE && request.modes.as_slice().contains(&CRC)
}

fn is_zero(byte: u8) -> bool
    ensures { result ≡ (byte == 0) }
{
    byte == 0
}

fn are_zero(bytes: &[u8]) -> bool
    ensures { result ≡ list_all (λ b. b == 0) bytes.now }
{
    bytes.iter().all(|b| is_zero(*b))
}

/// Whether it is the signature of crc mode.
fn is_right(signature: &[u8]) -> bool
    ensures { result ≡ is_unsigned signature.now }
{
    signature.len() == SIGNATURE_BYTES && are_zero(signature)
}

/// The refusal of a frame whose tag isn't waited for; AUTH_BAD_METHOD is the acceptor's own refusal.
fn refusal(awaited: Awaited, tag: u8) -> HalfFault
    ensures { result ≡ unawaited awaited tag }
{
    if awaited == Awaited::Done && tag == Tag::AuthBadMethod.number() {
        HalfFault::BadAuth
    } else {
        HalfFault::Unexpected { tag }
    }
}

/// What HELLO brings.
fn after_hello(
    alloc: Global,
    auth: AuthPayload,
    side: HalfSide,
    control: &Control,
) -> Result<Turn, Halt>
    ensures { GivesTurn result (after auth side awaits.Hello (bare control.now)) }
{
    match control {
        Control::Hello(_) => match side {
            HalfSide::Opener => {
                let mut text = Blob::empty(alloc);
                put_request(alloc, auth, &mut text)?;
                Ok(Turn::Says(Awaited::Done, text))
            }
            HalfSide::Acceptor => Ok(Turn::Listens(Awaited::Request)),
        },
        other => Err(unexpected(other)),
    }
}

/// What AUTH_REQUEST brings.
fn after_request(
    alloc: Global,
    auth: AuthPayload,
    side: HalfSide,
    control: &Control,
) -> Result<Turn, Halt>
    ensures { GivesTurn result (after auth side awaits.Request (bare control.now)) }
{
    match control {
        Control::AuthRequest(request) => {
            let mut text = Blob::empty(alloc);
            if serves(request) {
                put_done(alloc, &mut text)?;
                put_signature(alloc, &mut text)?;
                Ok(Turn::Says(Awaited::Signature, text))
            } else {
                put_bad_method(alloc, request.method, &mut text)?;
                Ok(Turn::Says(Awaited::Request, text))
            }
        }
        other => Err(unexpected(other)),
    }
}

/// What AUTH_DONE brings.
fn after_done(
    alloc: Global,
    auth: AuthPayload,
    side: HalfSide,
    control: &Control,
) -> Result<Turn, Halt>
    ensures { GivesTurn result (after auth side awaits.Done (bare control.now)) }
{
    match control {
        Control::AuthDone(done) => {
            if done.mode != CRC {
                return Err(Halt::Fault(HalfFault::BadAuth));
            }
            let mut text = Blob::empty(alloc);
            put_signature(alloc, &mut text)?;
            Ok(Turn::Says(Awaited::Signature, text))
        }
        other => Err(unexpected(other)),
    }
}

/// What AUTH_SIGNATURE brings.
fn after_signature(auth: AuthPayload, side: HalfSide, control: &Control) -> Result<Turn, Halt>
    ensures { GivesTurn result (after auth side awaits.Signature (bare control.now)) }
{
    match control {
        Control::AuthSignature(signature) => {
            if is_right(signature.signature.as_slice()) {
                Ok(Turn::Signs)
            } else {
                Err(Halt::Fault(HalfFault::BadSignature))
            }
        }
        other => Err(unexpected(other)),
    }
}

/// What a payload brings that isn't waited for.
fn unexpected(control: &Control) -> Halt
    ensures { result ≡ halts.Fault (faults.Unexpected (tag_number (tag_of (bare control.now)))) }
{
    Halt::Fault(HalfFault::Unexpected { tag: control.tag() })
}

/// What a payload brings.
fn after_control(
    alloc: Global,
    auth: AuthPayload,
    side: HalfSide,
    awaited: Awaited,
    control: &Control,
) -> Result<Turn, Halt>
    ensures { GivesTurn result (after auth side awaited (bare control.now)) }
{
    match awaited {
        Awaited::Hello => after_hello(alloc, auth, side, control),
        Awaited::Request => after_request(alloc, auth, side, control),
        Awaited::Done => after_done(alloc, auth, side, control),
        Awaited::Signature => after_signature(auth, side, control),
    }
}

/// What a whole frame brings at a half whose AUTH_REQUEST carries this: its tag is looked at, and then its
/// payload is read.
pub fn react(
    alloc: Global,
    auth: AuthPayload,
    side: HalfSide,
    awaited: Awaited,
    frame: &Frame,
) -> Result<Turn, Halt>
    ensures { GivesTurn result (after_frame auth side awaited (parts frame.now)) }
{
    let tag = tag_of(awaited);
    if frame.tag != tag.number() {
        return Err(Halt::Fault(refusal(awaited, frame.tag)));
    }
    let control = read_control(alloc, tag, frame.first.as_slice())?;
    after_control(alloc, auth, side, awaited, &control)
}
