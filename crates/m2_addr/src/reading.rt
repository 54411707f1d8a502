//! Reading one address from left to right.

ghost use Rattle.std.specs.Prelude.{◌≡◌, ◌≢◌, ℕ, List, ◌++◌, ◌<◌, ◌≤◌, true, length, IfOk, Ok, Err};
ghost use Rattle.m2_bytes.specs.Blob.{Contents};
ghost use Rattle.m2_addr.specs.declared.addr.Addr.{Addr};
ghost use Rattle.m2_addr.specs.declared.addr.AnyAddr.{AnyAddr};
ghost use Rattle.m2_addr.specs.declared.addr.AnyAddr.TheVariants.{V4, Other};
ghost use Rattle.m2_addr.specs.declared.fault.AddrFault.TheVariants.{NotIpv4};
ghost use Rattle.m2_addr.specs.Addr.{IsAddress, IsShape, TakesShape, TakesAddress, IsSound, bare, head_text, text_of, head_at, body_of, shape_at, address_at, ipv4_at, ipv4_in, is_ipv4, ipv4_of};
ghost use Rattle.m2_addr.specs.Grammar.{IsBytes};
ghost use Rattle.m2_addr.specs.Outcome.{Gives, GivesFront, GivesRest};
ghost use Rattle.m2_addr.specs.Reading.{made};
ghost use Rattle.m2_addr.specs.Shape.{shape};

use crate::addr::{Addr, AnyAddr};
use crate::fault::AddrFault;
use m2_bytes::{Blob, NoMemory, Reader, put_u8, put_u32};
use std::alloc::Global;

/// How many bytes follow the length of an address at least.
pub const LEAST_LENGTH: u32 = 12;

/// How many bytes follow the length of an address at most.
pub const MOST_LENGTH: u32 = 4096;

const MARKER: u8 = 1;

const COMPAT: u8 = 1;

/// An address as it stands in a text, lent from it.
#[derive(Clone, Copy)]
struct Parts<'a> {
    version: u8,
    /// All that follows the length.
    rest: &'a [u8],
    kind: u32,
    nonce: u32,
    socket: &'a [u8],
}

/// The version, and the length of what follows.
#[tactic(auto, unfolding(crate::specs::Addr::head_at))]
fn read_head(r: &mut Reader<'_>) -> Result<(u8, u32), AddrFault>
    ensures exact { GivesFront (λ h. h) result r.new (head_at r.old) }
    ensures text { IfOk result (λ h. r.old ≡ head_text h ++ r.new) }
    ensures fits { IfOk result (λ h. (h.0 ≢ 0) × (h.0 < 256) × (LEAST_LENGTH ≤ h.1) × (h.1 ≤ MOST_LENGTH)) }
{
    if r.u8()? != MARKER {
        return Err(AddrFault::BadMarker);
    }
    let version = r.u8()?;
    if version == 0 {
        return Err(AddrFault::BadMarker);
    }
    if r.u8()? != COMPAT {
        return Err(AddrFault::BadMarker);
    }
    let length = r.u32()?;
    if length < LEAST_LENGTH || length > MOST_LENGTH {
        return Err(AddrFault::BadLength);
    }
    Ok((version, length))
}

/// Kind, nonce and socket address at the front of what follows the length.
#[tactic(auto, unfolding(crate::specs::Addr::body_of, crate::specs::Addr::socket_at))]
fn read_body(rest: &[u8]) -> Result<(u32, u32, &[u8]), AddrFault>
    ensures exact { Gives (λ b. (b.0, (b.1, b.2.now))) result (body_of rest.now) }
    ensures bytes { IsBytes rest.now }
{
    let mut fields = Reader::new(rest);
    let kind = fields.u32()?;
    let nonce = fields.u32()?;
    let length = fields.u32()?;
    if length == 1 {
        return Err(AddrFault::BadLength);
    }
    match fields.take(length as usize) {
        Ok(socket) => Ok((kind, nonce, socket)),
        Err(_) => Err(AddrFault::BadLength),
    }
}

#[tactic(auto, unfolding(crate::specs::Addr::shape_at))]
fn read_parts<'a>(r: &mut Reader<'a>) -> Result<Parts<'a>, AddrFault>
    ensures exact { GivesFront shape result r.new (shape_at r.old) }
    ensures found { IfOk result (λ p. TakesShape (shape p) r.old r.new) }
    ensures most { IfOk result (λ p. length p.rest.now ≤ MOST_LENGTH) }
{
    let (version, length) = read_head(r)?;
    let rest = r.take(length as usize)?;
    let (kind, nonce, socket) = read_body(rest)?;
    Ok(Parts {
        version,
        rest,
        kind,
        nonce,
        socket,
    })
}

impl Parts<'_> {
    fn is_ipv4(&self) -> bool
        ensures { result ≡ is_ipv4 (shape self.now) }
    {
        let socket = self.socket;
        socket.len() == 16 && socket[0] == 2 && socket[1] == 0
    }

    fn ipv4(&self) -> Addr
        requires family { is_ipv4 (shape self.now) ≡ true }
        requires parts { IsShape (shape self.now) (text_of (shape self.now)) }
        ensures value { result ≡ ipv4_of (shape self.now) }
        ensures sound { IsSound (V4 result) }
    {
        let socket = self.socket;
        Addr {
            kind: self.kind,
            nonce: self.nonce,
            ip: u32::from_be_bytes([socket[4], socket[5], socket[6], socket[7]]),
            port: u16::from_be_bytes([socket[2], socket[3]]),
        }
    }

    /// The bytes of the address, from the marker to the end.
    fn copy(&self, alloc: Global) -> Result<Blob, NoMemory>
        requires { length self.now.rest.now ≤ MOST_LENGTH }
        ensures { IfOk result (λ b. b.bytes ≡ text_of (shape self.now)) }
    {
        let mut text = Blob::empty(alloc);
        text.reserve(self.rest.len() + 7)?;
        put_u8(&mut text, MARKER)?;
        put_u8(&mut text, self.version)?;
        put_u8(&mut text, COMPAT)?;
        put_u32(&mut text, self.rest.len() as u32)?;
        text.push_all(self.rest)?;
        Ok(text)
    }
}

#[tactic(auto, using(crate::proofs::Shape::sound_other, crate::proofs::Shape::fails))]
fn any(alloc: Global, r: &mut Reader<'_>) -> Result<AnyAddr, AddrFault>
    ensures exact { GivesRest bare result r.new (address_at r.old) }
    ensures found { IfOk result (λ a. TakesAddress (bare a) r.old r.new) }
    ensures sound { IfOk result IsSound }
{
    let parts = read_parts(r)?;
    if parts.is_ipv4() {
        Ok(AnyAddr::V4(parts.ipv4()))
    } else {
        Ok(AnyAddr::Other(parts.copy(alloc)?))
    }
}

fn ipv4(r: &mut Reader<'_>) -> Result<Addr, AddrFault>
    ensures exact { GivesFront (λ a. a) result r.new (ipv4_at r.old) }
    ensures found { IfOk result (λ a. TakesAddress (V4 a) r.old r.new) }
{
    let parts = read_parts(r)?;
    if !parts.is_ipv4() {
        return Err(AddrFault::NotIpv4);
    }
    Ok(parts.ipv4())
}

/// The address at the front where it is an IPv4 address, none where it is any other. Takes no
/// memory.
pub(crate) fn skim(r: &mut Reader<'_>) -> Result<Option<Addr>, AddrFault>
    ensures { GivesFront (λ a. a) result r.new (made ipv4_in address_at r.old) }
{
    let parts = read_parts(r)?;
    if parts.is_ipv4() {
        Ok(Some(parts.ipv4()))
    } else {
        Ok(None)
    }
}

/// Reads the address at the front: an IPv4 address, or the bytes of any other. After a refusal
/// the reader's place isn't stated.
pub fn read_addr(alloc: Global, r: &mut Reader<'_>) -> Result<AnyAddr, AddrFault>
    // What is read is a text of the address.
    ensures found { IfOk result (λ a. TakesAddress (bare a) r.old r.new) }
    // Each text of an address is read as it, unless memory runs out.
    ensures only { (a : AnyAddr) (text rest : List ℕ) → IsAddress a text → r.old ≡ text ++ rest → GivesRest bare result r.new (Ok (a, rest)) }
    // Which fault it is: the first in the text.
    ensures exact { GivesRest bare result r.new (address_at r.old) }
    // The bytes of any other address are well-formed.
    ensures sound { IfOk result IsSound }
{
    any(alloc, r)
}

/// Reads the IPv4 address at the front. Takes no memory: NotIpv4 where a well-formed address is
/// no IPv4 address, the other faults as [`read_addr`].
pub fn read_v4(r: &mut Reader<'_>) -> Result<Addr, AddrFault>
    // What is read is a text of the address.
    ensures found { IfOk result (λ a. TakesAddress (V4 a) r.old r.new) }
    // Each text of an IPv4 address is read as it.
    ensures only { (a : Addr) (text rest : List ℕ) → IsAddress (V4 a) text → r.old ≡ text ++ rest → (result ≡ Ok a) × (r.new ≡ rest) }
    // Any other address is refused as such.
    ensures not_ipv4 { (b : Contents) (text rest : List ℕ) → IsAddress (Other b) text → r.old ≡ text ++ rest → result ≡ Err NotIpv4 }
    // Which fault it is: the first in the text.
    ensures exact { GivesFront (λ a. a) result r.new (ipv4_at r.old) }
{
    ipv4(r)
}
