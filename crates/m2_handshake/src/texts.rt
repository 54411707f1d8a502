//! What a half writes until it is authed.

ghost use Rattle.std.specs.Prelude.{◌≡◌, ◌≤◌, ◌∷◌, [], length, IfOk};
ghost use Rattle.m2_control.specs.Control.{IsWritable, text_of};
ghost use Rattle.m2_frame.specs.declared.frame.TheConstants.{CONTROL_LIMIT};
ghost use Rattle.m2_handshake.specs.Texts.{Adds, IsReply, frame_text, hello, auth_bytes, request, done, signature, bad_method};

use m2_addr::{Addr, AnyAddr};
use m2_bytes::{Blob, NoMemory};
use m2_control::{
    AuthBadMethod, AuthDone, AuthRequest, AuthSignature, Control, Hello, NumList, SIGNATURE_BYTES,
};
use m2_frame::{Frame, encode};
use m2_policy::AuthPayload;
use std::alloc::Global;

/// The method of authentication that asks for none.
pub const NONE: u32 = 1;

/// The connection mode with checksums and without encryption.
pub const CRC: u32 = 1;

/// What AUTH_BAD_METHOD answers: -EOPNOTSUPP.
pub const NOT_SUPPORTED: i32 = -95;

/// An authorizer of the method that asks for none: its version, a client, an id of no bytes, and global id 0.
const AUTHORIZER: [u8; 17] = [1, 8, 0, 0, 0, 0, 0, 0, 0, 0, 0, 0, 0, 0, 0, 0, 0];

/// The signature of crc mode.
const UNSIGNED: [u8; SIGNATURE_BYTES] = [0; SIGNATURE_BYTES];

/// Appends the frame of a payload, or nothing for want of memory.
pub fn put_frame(alloc: Global, control: &Control, out: &mut Blob) -> Result<(), NoMemory>
    requires writable { IsWritable control.now }
    requires short { length (text_of control.now) ≤ CONTROL_LIMIT }
    ensures { Adds result out.old out.new (frame_text control.now) }
{
    let mut first = Blob::empty(alloc);
    control.write(&mut first)?;
    let frame = Frame {
        tag: control.tag(),
        first,
        second: Blob::empty(alloc),
        third: Blob::empty(alloc),
        fourth: Blob::empty(alloc),
    };
    encode(&frame, out)
}

/// A list of one number.
fn only(alloc: Global, number: u32) -> Result<NumList, NoMemory>
    ensures { IfOk result (λ l. l.items ≡ number ∷ []) }
{
    let mut list = NumList::empty(alloc);
    match list.push(number) {
        Ok(()) => Ok(list),
        Err(_) => Err(NoMemory),
    }
}

/// Appends HELLO.
pub fn put_hello(alloc: Global, entity: u8, seen: Addr, out: &mut Blob) -> Result<(), NoMemory>
    ensures { Adds result out.old out.new (frame_text (hello entity seen)) }
{
    let hello = Control::Hello(Hello {
        entity,
        seen: AnyAddr::V4(seen),
    });
    put_frame(alloc, &hello, out)
}

/// What AUTH_REQUEST carries beside its method and modes.
fn auth_payload(alloc: Global, auth: AuthPayload) -> Result<Blob, NoMemory>
    ensures exact { IfOk result (λ b. b.bytes ≡ auth_bytes auth) }
    ensures few { IfOk result (λ b. length b.bytes ≤ 17) }
{
    match auth {
        AuthPayload::Empty => Ok(Blob::empty(alloc)),
        AuthPayload::Authorizer => Blob::of(alloc, &AUTHORIZER),
    }
}

/// Appends AUTH_REQUEST.
pub fn put_request(alloc: Global, auth: AuthPayload, out: &mut Blob) -> Result<(), NoMemory>
    ensures { Adds result out.old out.new (frame_text (request auth)) }
{
    let request = Control::AuthRequest(AuthRequest {
        method: NONE,
        modes: only(alloc, CRC)?,
        payload: auth_payload(alloc, auth)?,
    });
    put_frame(alloc, &request, out)
}

/// Appends AUTH_DONE.
pub fn put_done(alloc: Global, out: &mut Blob) -> Result<(), NoMemory>
    ensures { Adds result out.old out.new (frame_text done) }
{
    let done = Control::AuthDone(AuthDone {
        global_id: 0,
        mode: CRC,
        payload: Blob::empty(alloc),
    });
    put_frame(alloc, &done, out)
}

/// Appends AUTH_SIGNATURE.
pub fn put_signature(alloc: Global, out: &mut Blob) -> Result<(), NoMemory>
    ensures { Adds result out.old out.new (frame_text signature) }
{
    let signature = Control::AuthSignature(AuthSignature {
        signature: Blob::of(alloc, &UNSIGNED)?,
    });
    put_frame(alloc, &signature, out)
}

/// Appends AUTH_BAD_METHOD for the method that was asked for.
pub fn put_bad_method(alloc: Global, method: u32, out: &mut Blob) -> Result<(), NoMemory>
    ensures { Adds result out.old out.new (frame_text (bad_method method)) }
{
    let refusal = Control::AuthBadMethod(AuthBadMethod {
        method,
        outcome: NOT_SUPPORTED,
        methods: only(alloc, NONE)?,
        modes: only(alloc, CRC)?,
    });
    put_frame(alloc, &refusal, out)
}

/// Appends the frame of a reply.
pub fn put_reply(alloc: Global, reply: &Control, out: &mut Blob) -> Result<(), NoMemory>
    requires { IsReply reply.now }
    ensures { Adds result out.old out.new (frame_text reply.now) }
{
    put_frame(alloc, reply, out)
}
