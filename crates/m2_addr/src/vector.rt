//! The addresses of one entity.

ghost use Rattle.std.specs.Prelude.{◌≡◌, ◌≤◌, ◌+◌, ◌*◌, ℕ, List, [], ◌∷◌, ◌++◌, length, IfOk, Ok, Result};
ghost use Rattle.std.specs.List.{AllByRecursion};
ghost use Rattle.m2_bytes.specs.Blob.{Appends};
ghost use Rattle.m2_addr.specs.declared.addr.AnyAddr.{AnyAddr};
ghost use Rattle.m2_addr.specs.declared.addr.AnyAddr.TheVariants.{V4};
ghost use Rattle.m2_addr.specs.Addr.{IsSound, bare, any_text};
ghost use Rattle.std.specs.List.{flat_map};
ghost use Rattle.m2_addr.specs.declared.reading.TheConstants.{MOST_LENGTH};
ghost use Rattle.m2_addr.specs.Grammar.{IsBytes};
ghost use Rattle.m2_addr.specs.Outcome.{Fails, GivesFront, GivesRest};
ghost use Rattle.m2_addr.specs.Vector.{IsVector, TakesVector, IsKept, bares, option_main, main_with, mains_at, main_at, addresses_at, count_at, vector_at, vector_text, main_of};

use crate::addr::{Addr, AnyAddr};
use crate::fault::AddrFault;
use crate::reading::{read_addr, skim};
use m2_bytes::{Blob, NoMemory, Reader, put_u8, put_u32};
use std::alloc::Global;
use std::marker::Model;

const MARKER: u8 = 2;

/// How many addresses a vector has at most.
pub const MOST_ADDRESSES: u32 = 64;

/// The addresses of one entity, as `entity_addrvec_t` has them: at most [`MOST_ADDRESSES`].
/// Contracts see the
/// list of them.
///
/// Makers: [`one`](AddrVec::one), [`read`](AddrVec::read). Readers:
/// [`main`](AddrVec::main), [`as_slice`](AddrVec::as_slice). Writer: [`write`](AddrVec::write).
#[derive(Debug, Drop)]
pub struct AddrVec {
    items: Vec<AnyAddr>,
}

impl Model for AddrVec {
    ghost use Rattle.std.specs.Prelude.{List};
    ghost use Rattle.m2_addr.specs.declared.addr.AnyAddr.{AnyAddr};
    ghost use Rattle.m2_addr.specs.Vector.{IsKept};

    ghost Value = { List AnyAddr };

    ghost view = { λ v. v.items.items };

    ghost invariant = { λ v. IsKept v.items.items };
}

/// How many addresses follow, at most 64.
fn read_count(r: &mut Reader<'_>) -> Result<u32, AddrFault>
    ensures exact { GivesFront (λ n. n) result r.new (count_at r.old) }
    ensures most { IfOk result (λ n. n ≤ MOST_ADDRESSES) }
{
    if r.u8()? != MARKER {
        return Err(AddrFault::BadMarker);
    }
    let count = r.u32()?;
    if count > MOST_ADDRESSES {
        return Err(AddrFault::TooMany);
    }
    Ok(count)
}

/// So many addresses. Memory for one is asked for only when it was read.
fn read_addresses(alloc: Global, count: u32, r: &mut Reader<'_>) -> Result<Vec<AnyAddr>, AddrFault>
    ensures exact { GivesRest (λ v. bares v.items) result r.new (addresses_at count r.old) }
    ensures count { IfOk result (λ v. length v.items ≡ count) }
    ensures sound { IfOk result (λ v. AllByRecursion IsSound v.items) }
{
    let mut items = Vec::new(alloc);
    'addresses: for _ in 0..count {
        let address = read_addr(alloc, r)?;
        items.push(address)?;
    }
    Ok(items)
}

/// The first IPv4 address of kind msgr2.
fn main_among(addresses: &[AnyAddr]) -> Result<Addr, AddrFault>
    ensures { result ≡ main_of addresses.now }
{
    'addresses: for address in addresses {
        if let AnyAddr::V4(a) = address {
            if a.kind == Addr::MSGR2 {
                return Ok(*a);
            }
        }
    }
    Err(AddrFault::NoMsgr2)
}

/// The main address that was found, or else this one where it is such.
fn main_with(found: Option<Addr>, next: Option<Addr>) -> Option<Addr>
    ensures { result ≡ main_with found next }
{
    match (found, next) {
        (None, Some(a)) if a.kind == Addr::MSGR2 => Some(a),
        _ => found,
    }
}

/// The main address of so many addresses, none where there is none. Takes no memory.
fn skim_addresses(count: u32, r: &mut Reader<'_>) -> Result<Option<Addr>, AddrFault>
    ensures { GivesFront option_main result r.new (mains_at count r.old) }
{
    let mut main = None;
    'addresses: for _ in 0..count {
        let address = skim(r)?;
        main = main_with(main, address);
    }
    Ok(main)
}

/// Reads the vector at the front, and gives its main address alone: what [`AddrVec::read`] and
/// [`AddrVec::main`] say of it, without taking memory.
pub fn read_main(r: &mut Reader<'_>) -> Result<Addr, AddrFault>
    ensures { GivesFront (λ a. a) result r.new (main_at r.old) }
{
    let count = read_count(r)?;
    match skim_addresses(count, r)? {
        Some(main) => Ok(main),
        None => Err(AddrFault::NoMsgr2),
    }
}

/// The length of the texts of these addresses, in bytes.
fn size_of(addresses: &[AnyAddr]) -> usize
    requires { IsKept addresses.now }
    ensures exact { result ≡ length (flat_map any_text addresses.now) }
    ensures most { result ≤ MOST_ADDRESSES * (7 + MOST_LENGTH) }
{
    let mut size = 0;
    'addresses: for address in addresses {
        size += address.size();
    }
    size
}

/// Appends the texts of these addresses, which fit in the room.
fn put_addresses(addresses: &[AnyAddr], out: &mut Blob) -> Result<(), NoMemory>
    requires { length (flat_map any_text addresses.now) ≤ out.old.room }
    ensures { Appends result out.old out.new (flat_map any_text addresses.now) }
{
    'addresses: for address in addresses {
        address.write(out)?;
    }
    Ok(())
}

#[tactic(auto, unfolding(crate::specs::Vector::vector_at), using(crate::proofs::Shape::fails))]
fn vector(alloc: Global, r: &mut Reader<'_>) -> Result<Vec<AnyAddr>, AddrFault>
    ensures exact { GivesRest (λ v. bares v.items) result r.new (vector_at r.old) }
    ensures kept { IfOk result (λ v. IsKept v.items) }
{
    let count = read_count(r)?;
    read_addresses(alloc, count, r)
}

fn read_vector(alloc: Global, r: &mut Reader<'_>) -> Result<Vec<AnyAddr>, AddrFault>
    ensures only { (addresses : List AnyAddr) (text rest : List ℕ) → IsVector addresses text → r.old ≡ text ++ rest → GivesRest (λ v. bares v.items) result r.new (Ok (addresses, rest)) }
    ensures found { IsBytes r.old → IfOk result (λ v. TakesVector (bares v.items) r.old r.new) }
    ensures exact { GivesRest (λ v. bares v.items) result r.new (vector_at r.old) }
    ensures kept { IfOk result (λ v. IsKept v.items) }
{
    vector(alloc, r)
}

impl AddrVec {
    /// A vector of this address alone.
    pub fn one(alloc: Global, a: Addr) -> Result<AddrVec, NoMemory>
        ensures { IfOk result (λ v. v ≡ V4 a ∷ []) }
    {
        let mut items = Vec::new(alloc);
        items.push(AnyAddr::V4(a))?;
        Ok(AddrVec { items })
    }

    /// Reads the vector at the front. After a refusal the reader's place isn't stated.
    pub fn read(alloc: Global, r: &mut Reader<'_>) -> Result<AddrVec, AddrFault>
        // Each text of a vector is read as it, unless memory runs out.
        ensures only { (addresses : List AnyAddr) (text rest : List ℕ) → IsVector addresses text → r.old ≡ text ++ rest → GivesRest bares result r.new (Ok (addresses, rest)) }
        // What is read is a text of the vector, as far as the reader holds bytes.
        ensures found { IsBytes r.old → IfOk result (λ v. TakesVector (bares v) r.old r.new) }
        // Which fault it is: the first in the text.
        ensures exact { GivesRest bares result r.new (vector_at r.old) }
        ensures kept { IfOk result IsKept }
    {
        match read_vector(alloc, r) {
            Ok(items) => Ok(AddrVec { items }),
            Err(fault) => Err(fault),
        }
    }

    /// The addresses in order.
    pub fn as_slice(&self) -> &[AnyAddr]
        ensures value { result.now ≡ self.now }
        ensures kept { IsKept self.now }
    {
        self.items.as_slice()
    }

    /// The main address: the first IPv4 address of kind msgr2. NoMsgr2 exactly where there is
    /// none.
    pub fn main(&self) -> Result<Addr, AddrFault>
        ensures { result ≡ main_of self.now }
    {
        main_among(self.as_slice())
    }

    /// The length of the text that is written, in bytes.
    pub fn size(&self) -> usize
        ensures exact { result ≡ length (vector_text self.now) }
        ensures most { result ≤ 5 + MOST_ADDRESSES * (7 + MOST_LENGTH) }
        ensures kept { IsKept self.now }
    {
        5 + size_of(self.as_slice())
    }

    /// Appends the vector.
    pub fn write(&self, out: &mut Blob) -> Result<(), NoMemory>
        ensures text { Appends result out.old out.new (vector_text self.now) }
        // What is written is a text of this vector, so it is read again.
        ensures spelled { IsVector (bares self.now) (vector_text self.now) }
    {
        out.reserve(self.size())?;
        let addresses = self.as_slice();
        put_u8(out, MARKER)?;
        put_u32(out, addresses.len() as u32)?;
        put_addresses(addresses, out)
    }
}
