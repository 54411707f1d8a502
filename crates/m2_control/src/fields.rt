//! The fields that control payloads share, each read and written in one place.

ghost use Rattle.std.specs.Prelude.{◌≡◌, ◌≤◌, ◌+◌, ◌*◌, ◌++◌, length};
ghost use Rattle.std.specs.List.{flat_map};
ghost use Rattle.std.specs.Int.{w32, w64, to_le_bytes};
ghost use Rattle.m2_bytes.specs.Blob.{Appends};
ghost use Rattle.m2_addr.specs.Addr.{bare, address_at, ipv4_at};
ghost use Rattle.m2_addr.specs.Vector.{bares, main_at};
ghost use Rattle.m2_addr.specs.Reading.{prefix};
ghost use Rattle.m2_control.specs.declared.fault.ControlFault.TheVariants.{Short};
ghost use Rattle.m2_control.specs.Outcome.{GivesFront, GivesRest};
ghost use Rattle.m2_control.specs.Fields.{bounded_at, cookie_at, flag_at, numbers_at, list_at, string_at, lifted, vector_field, list_text, string_text};

use crate::fault::{ControlFault, raised};
use m2_addr::{Addr, AddrFault, AddrVec, AnyAddr, read_addr, read_main, read_v4};
use m2_bytes::{Blob, Items, NoMemory, Reader, put_u32, put_u64};
use std::alloc::Global;

/// A list of numbers. Contracts see the numbers.
pub type NumList = Items<u32>;

/// The greatest number that is read: of messages, connects and global numbers; 2^40.
pub const GREATEST_NUMBER: u64 = 1 << 40;

/// How many numbers a list has at most.
pub const MOST_LISTED: u32 = 64;

/// How many bytes a signature has.
pub const SIGNATURE_BYTES: usize = 32;

/// How many bytes a byte string has at most.
pub const MOST_BYTES: u32 = 4096;

/// A number of at most [`GREATEST_NUMBER`], else the field has a bad value.
#[tactic(auto, unfolding(crate::specs::Fields::bounded_at))]
pub(crate) fn bounded(r: &mut Reader<'_>, field: u8) -> Result<u64, ControlFault>
    ensures { GivesFront (λ n. n) result r.new (bounded_at field r.old) }
{
    let number = r.u64()?;
    if number > GREATEST_NUMBER {
        return Err(ControlFault::BadValue { field });
    }
    Ok(number)
}

/// A cookie that isn't 0, else the field has a bad value.
#[tactic(auto, unfolding(crate::specs::Fields::cookie_at))]
pub(crate) fn cookie(r: &mut Reader<'_>, field: u8) -> Result<u64, ControlFault>
    ensures { GivesFront (λ n. n) result r.new (cookie_at field r.old) }
{
    let cookie = r.u64()?;
    if cookie == 0 {
        return Err(ControlFault::BadValue { field });
    }
    Ok(cookie)
}

/// A byte of 0 or 1, else the field has a bad value.
#[tactic(auto, unfolding(crate::specs::Fields::flag_at))]
pub(crate) fn flag(r: &mut Reader<'_>, field: u8) -> Result<bool, ControlFault>
    ensures { GivesFront (λ b. b) result r.new (flag_at field r.old) }
{
    let byte = r.u8()?;
    if byte > 1 {
        return Err(ControlFault::BadValue { field });
    }
    Ok(byte == 1)
}

/// So many numbers. Memory is asked for once they are known to be there.
#[tactic(auto, using(crate::proofs::Lists::too_few))]
fn read_numbers(alloc: Global, count: u32, r: &mut Reader<'_>) -> Result<Vec<u32>, ControlFault>
    requires { count ≤ MOST_LISTED }
    ensures { GivesRest (λ v. v.items) result r.new (numbers_at count r.old) }
{
    if r.left() < 4 * count as usize {
        return Err(ControlFault::Short);
    }
    let mut numbers = Vec::with_capacity(alloc, count as usize)?;
    'numbers: for _ in 0..count {
        let number = r.u32()?;
        numbers.push(number)?;
    }
    Ok(numbers)
}

/// At most [`MOST_LISTED`] numbers behind their count, else the field has a bad value.
#[tactic(auto, unfolding(crate::specs::Fields::list_at))]
pub(crate) fn numbers(alloc: Global, r: &mut Reader<'_>, field: u8) -> Result<NumList, ControlFault>
    ensures { GivesRest (λ ns. ns.items) result r.new (list_at field r.old) }
{
    let count = r.u32()?;
    if count > MOST_LISTED {
        return Err(ControlFault::BadValue { field });
    }
    Ok(Items::from_vec(read_numbers(alloc, count, r)?))
}

/// At most [`MOST_BYTES`] bytes behind their count, else the field has a bad value.
#[tactic(auto, unfolding(crate::specs::Fields::string_at))]
pub(crate) fn string(alloc: Global, r: &mut Reader<'_>, field: u8) -> Result<Blob, ControlFault>
    ensures { GivesRest (λ b. b.bytes) result r.new (string_at field r.old) }
{
    let count = r.u32()?;
    if count > MOST_BYTES {
        return Err(ControlFault::BadValue { field });
    }
    let bytes = r.take(count as usize)?;
    Ok(Blob::of(alloc, bytes)?)
}

/// [`SIGNATURE_BYTES`] bytes.
pub(crate) fn signature(alloc: Global, r: &mut Reader<'_>) -> Result<Blob, ControlFault>
    ensures { GivesRest (λ b. b.bytes) result r.new (prefix SIGNATURE_BYTES Short r.old) }
{
    let bytes = r.take(SIGNATURE_BYTES)?;
    Ok(Blob::of(alloc, bytes)?)
}

/// Any address.
#[tactic(auto, using(crate::proofs::Raised::raised_fails))]
pub(crate) fn address(alloc: Global, r: &mut Reader<'_>) -> Result<AnyAddr, ControlFault>
    ensures { GivesRest bare result r.new (lifted address_at r.old) }
{
    match read_addr(alloc, r) {
        Ok(address) => Ok(address),
        Err(fault) => Err(raised(fault)),
    }
}

/// An IPv4 address.
pub(crate) fn target(r: &mut Reader<'_>) -> Result<Addr, ControlFault>
    ensures { GivesFront (λ a. a) result r.new (lifted ipv4_at r.old) }
{
    match read_v4(r) {
        Ok(address) => Ok(address),
        Err(fault) => Err(ControlFault::Address(fault)),
    }
}

/// The main address of a vector.
pub(crate) fn main_address(r: &mut Reader<'_>) -> Result<Addr, ControlFault>
    ensures { GivesFront (λ a. a) result r.new (lifted main_at r.old) }
{
    match read_main(r) {
        Ok(address) => Ok(address),
        Err(fault) => Err(ControlFault::Address(fault)),
    }
}

/// A vector with a main address.
#[tactic(auto, using(crate::proofs::Raised::raised_fails, crate::proofs::Raised::main_stays), unfolding(crate::specs::Fields::vector_field))]
pub(crate) fn addresses(alloc: Global, r: &mut Reader<'_>) -> Result<AddrVec, ControlFault>
    ensures { GivesRest bares result r.new (vector_field r.old) }
{
    match AddrVec::read(alloc, r) {
        Ok(addresses) => {
            if addresses.main().is_err() {
                return Err(ControlFault::Address(AddrFault::NoMsgr2));
            }
            Ok(addresses)
        }
        Err(fault) => Err(raised(fault)),
    }
}

/// The length of the text of the numbers, in bytes.
#[tactic(auto, using(crate::proofs::Lists::words_length))]
pub(crate) fn numbers_size(numbers: &[u32]) -> usize
    requires { length numbers.now ≤ MOST_LISTED }
    ensures exact { result ≡ length (list_text numbers.now) }
    ensures most { result ≤ 4 + 4 * MOST_LISTED }
{
    4 + 4 * numbers.len()
}

/// The length of the text of the bytes, in bytes.
pub(crate) fn string_size(bytes: &[u8]) -> usize
    requires { length bytes.now ≤ MOST_BYTES }
    ensures exact { result ≡ length (string_text bytes.now) }
    ensures most { result ≤ 4 + MOST_BYTES }
{
    4 + bytes.len()
}

/// Appends the numbers behind their count, which fit in the room.
pub(crate) fn put_numbers(out: &mut Blob, numbers: &[u32]) -> Result<(), NoMemory>
    requires few { length numbers.now ≤ MOST_LISTED }
    requires room { length (list_text numbers.now) ≤ out.old.room }
    ensures { Appends result out.old out.new (list_text numbers.now) }
{
    put_u32(out, numbers.len() as u32)?;
    'numbers: for number in numbers {
        put_u32(out, *number)?;
    }
    Ok(())
}

/// Appends the bytes behind their count, which fit in the room.
pub(crate) fn put_string(out: &mut Blob, bytes: &[u8]) -> Result<(), NoMemory>
    requires few { length bytes.now ≤ MOST_BYTES }
    requires room { length (string_text bytes.now) ≤ out.old.room }
    ensures { Appends result out.old out.new (string_text bytes.now) }
{
    put_u32(out, bytes.len() as u32)?;
    out.push_all(bytes)
}

/// Appends the numbers as eight bytes each, which fit in the room.
pub(crate) fn put_words(out: &mut Blob, words: &[u64]) -> Result<(), NoMemory>
    requires { length (flat_map (to_le_bytes w64) words.now) ≤ out.old.room }
    ensures { Appends result out.old out.new (flat_map (to_le_bytes w64) words.now) }
{
    'words: for word in words {
        put_u64(out, *word)?;
    }
    Ok(())
}
