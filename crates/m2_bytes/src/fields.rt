//! Numbers as fields of a wire format, little-endian: read from a slice, appended to a buffer.

ghost use Rattle.std.specs.Prelude.{◌≡◌, [], ◌∷◌, length};
ghost use Rattle.std.specs.Int.{w16, w32, w64, to_le_bytes, from_le_bytes};
ghost use Rattle.m2_bytes.specs.Blob.{Appends};

use crate::blob::Blob;
use crate::memory::NoMemory;
use byteorder::{ByteOrder, LittleEndian};

/// Appends one byte.
pub fn put_u8(out: &mut Blob, v: u8) -> Result<(), NoMemory>
    ensures { Appends result out.old out.new (v ∷ []) }
{
    out.push_all(&[v])
}

/// Appends two bytes, the lowest first.
pub fn put_u16(out: &mut Blob, v: u16) -> Result<(), NoMemory>
    ensures { Appends result out.old out.new (to_le_bytes w16 v) }
{
    let mut field = [0u8; 2];
    LittleEndian::write_u16(&mut field, v);
    out.push_all(&field)
}

/// Appends four bytes, the lowest first.
pub fn put_u32(out: &mut Blob, v: u32) -> Result<(), NoMemory>
    ensures { Appends result out.old out.new (to_le_bytes w32 v) }
{
    let mut field = [0u8; 4];
    LittleEndian::write_u32(&mut field, v);
    out.push_all(&field)
}

/// Appends eight bytes, the lowest first.
pub fn put_u64(out: &mut Blob, v: u64) -> Result<(), NoMemory>
    ensures { Appends result out.old out.new (to_le_bytes w64 v) }
{
    let mut field = [0u8; 8];
    LittleEndian::write_u64(&mut field, v);
    out.push_all(&field)
}

/// The number of 2 bytes, the lowest first.
pub(crate) fn number16(field: &[u8]) -> u16
    requires { length field.now ≡ 2 }
    ensures value { result ≡ from_le_bytes w16 field.now }
    ensures written { to_le_bytes w16 result ≡ field.now }
{
    LittleEndian::read_u16(field)
}

/// The number of 4 bytes, the lowest first.
pub(crate) fn number32(field: &[u8]) -> u32
    requires { length field.now ≡ 4 }
    ensures value { result ≡ from_le_bytes w32 field.now }
    ensures written { to_le_bytes w32 result ≡ field.now }
{
    LittleEndian::read_u32(field)
}

/// The number of 8 bytes, the lowest first.
pub(crate) fn number64(field: &[u8]) -> u64
    requires { length field.now ≡ 8 }
    ensures value { result ≡ from_le_bytes w64 field.now }
    ensures written { to_le_bytes w64 result ≡ field.now }
{
    LittleEndian::read_u64(field)
}
