//! The words of which lines are made.

ghost use Rattle.std.specs.Prelude.{◌≡◌, ◌++◌, codes, OnOk};
ghost use Rattle.m2_trace.specs.Words.{Text, number_word, flag_word, bytes_word, dotted, ip_text, place_text, ends_text, socket_word, address_word, path_word, key_words, head};

use m2_addr::Addr;
use m2_bytes::{Blob, NoMemory, put_decimal, put_hex};
use m2_fabric::SocketId;
use m2_policy::{Key, Path};

/// Appends a space and a number.
#[tactic(auto, unfolding(crate::specs::Words::number_word))]
pub fn put_number(out: &mut Blob, n: u64) -> Result<(), NoMemory>
    ensures { OnOk result (out.new.bytes ≡ out.old.bytes ++ number_word n) }
{
    out.push_all(b" ")?;
    put_decimal(out, n)
}

/// Appends a space, and `yes` or `no`.
#[tactic(auto, unfolding(crate::specs::Words::flag_word))]
pub fn put_flag(out: &mut Blob, flag: bool) -> Result<(), NoMemory>
    ensures { OnOk result (out.new.bytes ≡ out.old.bytes ++ flag_word flag) }
{
    if flag {
        out.push_all(b" yes")
    } else {
        out.push_all(b" no")
    }
}

/// Appends a space and bytes in hexadecimal digits; `-` where there are none.
#[tactic(auto, unfolding(crate::specs::Words::bytes_word))]
pub fn put_bytes(out: &mut Blob, bytes: &[u8]) -> Result<(), NoMemory>
    ensures { OnOk result (out.new.bytes ≡ out.old.bytes ++ bytes_word bytes.now) }
{
    out.push_all(b" ")?;
    put_hex(out, bytes)
}

/// Appends what a line begins with.
#[tactic(auto, unfolding(crate::specs::Words::head))]
pub fn put_head(out: &mut Blob, side: &[u8], what: &[u8]) -> Result<(), NoMemory>
    ensures { OnOk result (out.new.bytes ≡ out.old.bytes ++ head side.now what.now) }
{
    out.push_all(side)?;
    out.push_all(b" ")?;
    out.push_all(what)
}

#[tactic(auto, unfolding(crate::specs::Words::dotted))]
fn put_dotted(out: &mut Blob, m: u32, n: u32) -> Result<(), NoMemory>
    ensures { OnOk result (out.new.bytes ≡ out.old.bytes ++ dotted m n) }
{
    put_decimal(out, m as u64)?;
    out.push_all(b".")?;
    put_decimal(out, n as u64)
}

#[tactic(auto, unfolding(crate::specs::Words::ip_text))]
fn put_ip(out: &mut Blob, ip: u32) -> Result<(), NoMemory>
    ensures { OnOk result (out.new.bytes ≡ out.old.bytes ++ ip_text ip) }
{
    put_dotted(out, ip / 16_777_216, ip / 65_536 % 256)?;
    out.push_all(b".")?;
    put_dotted(out, ip / 256 % 256, ip % 256)
}

#[tactic(auto, unfolding(crate::specs::Words::place_text))]
fn put_place(out: &mut Blob, ip: u32, port: u16) -> Result<(), NoMemory>
    ensures { OnOk result (out.new.bytes ≡ out.old.bytes ++ place_text ip port) }
{
    put_ip(out, ip)?;
    out.push_all(b":")?;
    put_decimal(out, port as u64)
}

#[tactic(auto, unfolding(crate::specs::Words::ends_text))]
fn put_ends(out: &mut Blob, s: &SocketId) -> Result<(), NoMemory>
    ensures { OnOk result (out.new.bytes ≡ out.old.bytes ++ ends_text s.now) }
{
    put_place(out, s.from_ip, s.from_port)?;
    out.push_all(b">")?;
    put_place(out, s.to_ip, s.to_port)
}

/// Appends a space and a socket's name.
#[tactic(auto, unfolding(crate::specs::Words::socket_word))]
pub fn put_socket(out: &mut Blob, s: &SocketId) -> Result<(), NoMemory>
    ensures { OnOk result (out.new.bytes ≡ out.old.bytes ++ socket_word s.now) }
{
    out.push_all(b" ")?;
    put_ends(out, s)?;
    out.push_all(b"/")?;
    put_decimal(out, s.turn as u64)
}

/// Appends a space and an address.
#[tactic(auto, unfolding(crate::specs::Words::address_word))]
pub(crate) fn put_address(out: &mut Blob, a: &Addr) -> Result<(), NoMemory>
    ensures { OnOk result (out.new.bytes ≡ out.old.bytes ++ address_word a.now) }
{
    out.push_all(b" ")?;
    put_place(out, a.ip, a.port)?;
    out.push_all(b"/")?;
    put_decimal(out, a.nonce as u64)
}

#[tactic(auto, unfolding(crate::specs::Words::path_word))]
fn put_path(out: &mut Blob, path: Path) -> Result<(), NoMemory>
    ensures { OnOk result (out.new.bytes ≡ out.old.bytes ++ path_word path) }
{
    match path {
        Path::Fast => out.push_all(b" fast"),
        Path::Queued => out.push_all(b" queued"),
    }
}

/// Appends a priority and a path.
#[tactic(auto, unfolding(crate::specs::Words::key_words))]
pub(crate) fn put_key(out: &mut Blob, key: &Key) -> Result<(), NoMemory>
    ensures { OnOk result (out.new.bytes ≡ out.old.bytes ++ key_words key.now) }
{
    put_number(out, key.priority as u64)?;
    put_path(out, key.path)
}
