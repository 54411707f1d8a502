//! The header of a message, in place.

ghost use Rattle.std.specs.Prelude.{◌≡◌, ◌+◌, ◌≤◌, length};
ghost use Rattle.std.specs.Int.{w16, w32, w64};
ghost use Rattle.m2_message.specs.HeaderText.{field, header_in};
ghost use Rattle.m2_frame_facts.specs.Header.{HeaderIs};

use byteorder::{ByteOrder, LittleEndian};
use m2_message::{HEADER_BYTES, Header, MessageFault};

fn u16_at(text: &[u8], at: usize) -> u16
    requires { at + 2 ≤ length text.now }
    ensures { result ≡ field w16 at text.now }
{
    LittleEndian::read_u16(&text[at..at + 2])
}

fn u32_at(text: &[u8], at: usize) -> u32
    requires { at + 4 ≤ length text.now }
    ensures { result ≡ field w32 at text.now }
{
    LittleEndian::read_u32(&text[at..at + 4])
}

fn u64_at(text: &[u8], at: usize) -> u64
    requires { at + 8 ≤ length text.now }
    ensures { result ≡ field w64 at text.now }
{
    LittleEndian::read_u64(&text[at..at + 8])
}

/// The fields of a header, each at its place.
fn fields_of(text: &[u8]) -> Header
    requires { length text.now ≡ HEADER_BYTES }
    ensures { result ≡ header_in text.now }
{
    Header {
        seq: u64_at(text, 0),
        tid: u64_at(text, 8),
        kind: u16_at(text, 16),
        priority: u16_at(text, 18),
        version: u16_at(text, 20),
        pre_padding: u32_at(text, 22),
        data_off: u16_at(text, 26),
        ack_seq: u64_at(text, 28),
        flags: text[36],
        compat: u16_at(text, 37),
        reserved: u16_at(text, 39),
    }
}

/// The header that the bytes say; none where they are fewer or more than a header has. It takes no memory.
pub(crate) fn read_header(text: &[u8]) -> Result<Header, MessageFault>
    ensures { HeaderIs text.now result }
{
    if text.len() == HEADER_BYTES {
        Ok(fields_of(text))
    } else {
        Err(MessageFault::BadHeader)
    }
}
