//! Appending an address to a buffer.

ghost use Rattle.std.specs.Prelude.{◌≡◌, length};
ghost use Rattle.m2_bytes.specs.Blob.{Appends};
ghost use Rattle.m2_addr.specs.declared.addr.AnyAddr.TheVariants.{V4};
ghost use Rattle.m2_addr.specs.Addr.{IsAddress, IsSound, IsWellFormed, ipv4_text, any_text};

use crate::addr::{Addr, AnyAddr};
use m2_bytes::{Blob, NoMemory};

/// The 35 bytes of an IPv4 address: version 1, and the bytes that a reader ignores 0.
fn text_of(a: Addr) -> [u8; 35]
    ensures text { result ≡ ipv4_text a }
    ensures spelled { IsAddress (V4 a) (ipv4_text a) }
{
    let [k0, k1, k2, k3] = a.kind.to_le_bytes();
    let [n0, n1, n2, n3] = a.nonce.to_le_bytes();
    let [p0, p1] = a.port.to_be_bytes();
    let [i0, i1, i2, i3] = a.ip.to_be_bytes();
    [
        1, 1, 1, 28, 0, 0, 0, k0, k1, k2, k3, n0, n1, n2, n3, 16, 0, 0, 0, 2, 0, p0, p1, i0, i1,
        i2, i3, 0, 0, 0, 0, 0, 0, 0, 0,
    ]
}

/// Appends the address as a text of 35 bytes.
pub fn write_addr(a: &Addr, out: &mut Blob) -> Result<(), NoMemory>
    ensures text { Appends result out.old out.new (ipv4_text a.now) }
    // What is written is a text of this address, so it is read again.
    ensures spelled { IsAddress (V4 a.now) (ipv4_text a.now) }
{
    let text = text_of(*a);
    out.push_all(&text)
}

impl AnyAddr {
    /// The length of the text that is written, in bytes.
    pub fn size(&self) -> usize
        ensures { result ≡ length (any_text self.now) }
    {
        match self {
            AnyAddr::V4(_) => 35,
            AnyAddr::Other(bytes) => bytes.len(),
        }
    }

    /// Appends the address: an IPv4 address as [`write_addr`], any other as its bytes.
    pub fn write(&self, out: &mut Blob) -> Result<(), NoMemory>
        ensures text { Appends result out.old out.new (any_text self.now) }
        // What is written is a text of this address, so it is read again.
        ensures spelled { IsWellFormed self.now → IsSound self.now }
    {
        match self {
            AnyAddr::V4(a) => write_addr(a, out),
            AnyAddr::Other(bytes) => out.push_all(bytes.as_slice()),
        }
    }
}
