//! The text of a message's header (Ceph's msgr2 documentation, `ceph_msg_header2`).

ghost use Rattle.std.specs.Prelude.{◌≡◌, IfOk};
ghost use Rattle.m2_message.specs.HeaderText.{header_text, ReadsHeader, SaysHeader};

use crate::Header;
use crate::fault::MessageFault;
use m2_bytes::{Blob, NoMemory, Reader, Short, put_u8, put_u16, put_u32, put_u64};
use std::alloc::Global;

/// How many bytes a header has.
pub const HEADER_BYTES: usize = 41;

/// The header's text, in place.
#[tactic(auto, unfolding(crate::specs::HeaderText::header_text))]
pub(crate) fn header_bytes(h: &Header) -> [u8; HEADER_BYTES]
    ensures { result ≡ header_text h.now }
{
    let s = h.seq.to_le_bytes();
    let t = h.tid.to_le_bytes();
    let k = h.kind.to_le_bytes();
    let p = h.priority.to_le_bytes();
    let v = h.version.to_le_bytes();
    let g = h.pre_padding.to_le_bytes();
    let d = h.data_off.to_le_bytes();
    let a = h.ack_seq.to_le_bytes();
    let c = h.compat.to_le_bytes();
    let r = h.reserved.to_le_bytes();
    [
        s[0], s[1], s[2], s[3], s[4], s[5], s[6], s[7], t[0], t[1], t[2], t[3], t[4], t[5], t[6],
        t[7], k[0], k[1], p[0], p[1], v[0], v[1], g[0], g[1], g[2], g[3], d[0], d[1], a[0], a[1],
        a[2], a[3], a[4], a[5], a[6], a[7], h.flags, c[0], c[1], r[0], r[1],
    ]
}

/// The header's text.
pub fn write_header(alloc: Global, h: &Header) -> Result<Blob, NoMemory>
    ensures { IfOk result (λ text. text.bytes ≡ header_text h.now) }
{
    let mut text = Blob::empty(alloc);
    text.reserve(HEADER_BYTES)?;
    put_u64(&mut text, h.seq)?;
    put_u64(&mut text, h.tid)?;
    put_u16(&mut text, h.kind)?;
    put_u16(&mut text, h.priority)?;
    put_u16(&mut text, h.version)?;
    put_u32(&mut text, h.pre_padding)?;
    put_u16(&mut text, h.data_off)?;
    put_u64(&mut text, h.ack_seq)?;
    put_u8(&mut text, h.flags)?;
    put_u16(&mut text, h.compat)?;
    put_u16(&mut text, h.reserved)?;
    Ok(text)
}

/// The header whose text stands at the front of what is left.
fn read_fields(r: &mut Reader<'_>) -> Result<Header, Short>
    ensures { ReadsHeader r.old result r.new }
{
    let seq = r.u64()?;
    let tid = r.u64()?;
    let kind = r.u16()?;
    let priority = r.u16()?;
    let version = r.u16()?;
    let pre_padding = r.u32()?;
    let data_off = r.u16()?;
    let ack_seq = r.u64()?;
    let flags = r.u8()?;
    let compat = r.u16()?;
    let reserved = r.u16()?;
    Ok(Header {
        seq,
        tid,
        kind,
        priority,
        version,
        pre_padding,
        data_off,
        ack_seq,
        flags,
        compat,
        reserved,
    })
}

/// The header whose text these bytes are.
pub fn read_header(bytes: &[u8]) -> Result<Header, MessageFault>
    ensures { SaysHeader bytes.now result }
{
    let mut r = Reader::new(bytes);
    let header = read_fields(&mut r)?;
    if r.left() > 0 {
        return Err(MessageFault::BadHeader);
    }
    Ok(header)
}
