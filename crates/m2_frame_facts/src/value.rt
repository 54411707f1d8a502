//! A field of a frame, and its text.

ghost use Rattle.std.specs.Prelude.{◌≡◌, ◌++◌, ◌∷◌, map, OnOk};
ghost use Rattle.std.specs.Fmt.{decimal, signed_decimal};
ghost use Rattle.m2_frame_facts.specs.Value.{told_by, said_by, place_of, dotted, ip_text, kind_text, ip_port_text, ipv4_text, place_text, quoted, more_texts, list_text, quoted_place, bits_text, said_text, field_text, fields_text, quote, flag_text};
ghost use Rattle.m2_bytes.specs.Hexadecimal.{hex_text};

use crate::field_name::{FieldName, before_value};
use crate::style::Style;
use itoa::Buffer;
use m2_addr::{Addr, AnyAddr};
use m2_bytes::{Blob, NoMemory, put_decimal, put_hex};

/// What a field says.
#[derive(Clone, Copy, Debug)]
pub(crate) enum Value<'a> {
    Number(u64),
    Signed(i64),
    Flag(bool),
    /// 64 bits of which each has a meaning, or none has: features, flags, a cookie.
    Bits(u64),
    Bytes(&'a [u8]),
    Numbers(&'a [u32]),
    Address(&'a AnyAddr),
    Ipv4(&'a Addr),
    Addresses(&'a [AnyAddr]),
    Word(&'a str),
}

/// A field: its name, and what it says.
#[derive(Clone, Copy, Debug)]
pub(crate) struct Field<'a> {
    pub name: FieldName,
    pub value: Value<'a>,
}

fn put_signed(out: &mut Blob, v: i64) -> Result<(), NoMemory>
    ensures { OnOk result (out.new.bytes ≡ out.old.bytes ++ signed_decimal v) }
{
    let mut buffer = Buffer::new();
    out.push_all(buffer.format(v).as_bytes())
}

#[tactic(auto, unfolding(crate::specs::Value::dotted))]
fn put_dotted(out: &mut Blob, a: u32, b: u32) -> Result<(), NoMemory>
    ensures { OnOk result (out.new.bytes ≡ out.old.bytes ++ dotted a b) }
{
    put_decimal(out, u64::from(a))?;
    out.push_all(b".")?;
    put_decimal(out, u64::from(b))
}

#[tactic(auto, unfolding(crate::specs::Value::ip_text))]
fn put_ip(out: &mut Blob, ip: u32) -> Result<(), NoMemory>
    ensures { OnOk result (out.new.bytes ≡ out.old.bytes ++ ip_text ip) }
{
    put_dotted(out, ip / 16_777_216, ip / 65_536 % 256)?;
    out.push_all(b".")?;
    put_dotted(out, ip / 256 % 256, ip % 256)
}

#[tactic(auto, unfolding(crate::specs::Value::kind_text))]
fn put_kind(out: &mut Blob, kind: u32) -> Result<(), NoMemory>
    ensures { OnOk result (out.new.bytes ≡ out.old.bytes ++ kind_text kind) }
{
    out.push_all(b"v")?;
    put_decimal(out, u64::from(kind))?;
    out.push_all(b":")
}

#[tactic(auto, unfolding(crate::specs::Value::ip_port_text))]
fn put_ip_port(out: &mut Blob, ip: u32, port: u16) -> Result<(), NoMemory>
    ensures { OnOk result (out.new.bytes ≡ out.old.bytes ++ ip_port_text ip port) }
{
    put_ip(out, ip)?;
    out.push_all(b":")?;
    put_decimal(out, u64::from(port))
}

#[tactic(auto, unfolding(crate::specs::Value::ipv4_text))]
fn put_ipv4(out: &mut Blob, a: &Addr) -> Result<(), NoMemory>
    ensures { OnOk result (out.new.bytes ≡ out.old.bytes ++ ipv4_text a.now) }
{
    put_kind(out, a.kind)?;
    put_ip_port(out, a.ip, a.port)?;
    out.push_all(b"/")?;
    put_decimal(out, u64::from(a.nonce))
}

fn put_address(out: &mut Blob, a: &AnyAddr) -> Result<(), NoMemory>
    ensures { OnOk result (out.new.bytes ≡ out.old.bytes ++ place_text (place_of a.now)) }
{
    match a {
        AnyAddr::V4(a) => put_ipv4(out, a),
        AnyAddr::Other(bytes) => {
            out.push_all(b"other:")?;
            put_hex(out, bytes.as_slice())
        }
    }
}

/// Appends the quote on either side of a text in JSON.
fn put_quote(out: &mut Blob, style: Style) -> Result<(), NoMemory>
    ensures { OnOk result (out.new.bytes ≡ out.old.bytes ++ quote style) }
{
    match style {
        Style::Line => Ok(()),
        Style::Json => out.push_all(b"\""),
    }
}

fn put_quoted_address(out: &mut Blob, style: Style, a: &AnyAddr) -> Result<(), NoMemory>
    ensures { OnOk result (out.new.bytes ≡ out.old.bytes ++ quoted_place style (place_of a.now)) }
{
    put_quote(out, style)?;
    put_address(out, a)?;
    put_quote(out, style)
}

fn put_quoted_ipv4(out: &mut Blob, style: Style, a: &Addr) -> Result<(), NoMemory>
    ensures { OnOk result (out.new.bytes ≡ out.old.bytes ++ quoted style (ipv4_text a.now)) }
{
    put_quote(out, style)?;
    put_ipv4(out, a)?;
    put_quote(out, style)
}

fn put_more_addresses(out: &mut Blob, style: Style, addresses: &[AnyAddr]) -> Result<(), NoMemory>
    ensures { OnOk result (out.new.bytes ≡ out.old.bytes ++ more_texts (quoted_place style) (map place_of addresses.now)) }
{
    'addresses: for address in addresses {
        out.push_all(b",")?;
        put_quoted_address(out, style, address)?;
    }
    Ok(())
}

fn put_addresses(out: &mut Blob, style: Style, addresses: &[AnyAddr]) -> Result<(), NoMemory>
    ensures { OnOk result (out.new.bytes ≡ out.old.bytes ++ list_text (quoted_place style) (map place_of addresses.now)) }
{
    match addresses {
        [] => out.push_all(b"[]"),
        [first, more @ ..] => {
            out.push_all(b"[")?;
            put_quoted_address(out, style, first)?;
            put_more_addresses(out, style, more)?;
            out.push_all(b"]")
        }
    }
}

fn put_more_numbers(out: &mut Blob, numbers: &[u32]) -> Result<(), NoMemory>
    ensures { OnOk result (out.new.bytes ≡ out.old.bytes ++ more_texts decimal numbers.now) }
{
    'numbers: for number in numbers {
        out.push_all(b",")?;
        put_decimal(out, u64::from(*number))?;
    }
    Ok(())
}

fn put_numbers(out: &mut Blob, numbers: &[u32]) -> Result<(), NoMemory>
    ensures { OnOk result (out.new.bytes ≡ out.old.bytes ++ list_text decimal numbers.now) }
{
    match numbers {
        [] => out.push_all(b"[]"),
        [first, more @ ..] => {
            out.push_all(b"[")?;
            put_decimal(out, u64::from(*first))?;
            put_more_numbers(out, more)?;
            out.push_all(b"]")
        }
    }
}

fn put_bits(out: &mut Blob, style: Style, n: u64) -> Result<(), NoMemory>
    ensures { OnOk result (out.new.bytes ≡ out.old.bytes ++ quoted style (bits_text n)) }
{
    put_quote(out, style)?;
    out.push_all(b"0x")?;
    put_hex(out, &n.to_be_bytes())?;
    put_quote(out, style)
}

fn put_bytes(out: &mut Blob, style: Style, bytes: &[u8]) -> Result<(), NoMemory>
    ensures { OnOk result (out.new.bytes ≡ out.old.bytes ++ quoted style (hex_text bytes.now)) }
{
    put_quote(out, style)?;
    put_hex(out, bytes)?;
    put_quote(out, style)
}

pub(crate) fn put_word(out: &mut Blob, style: Style, word: &[u8]) -> Result<(), NoMemory>
    ensures { OnOk result (out.new.bytes ≡ out.old.bytes ++ quoted style word.now) }
{
    put_quote(out, style)?;
    out.push_all(word)?;
    put_quote(out, style)
}

fn flag_word(flag: bool) -> &'static [u8]
    ensures { result.now ≡ flag_text flag }
{
    if flag { b"true" } else { b"false" }
}

/// Appends what a field says.
#[tactic(auto, unfolding(crate::specs::Value::said_text))]
fn put_value(out: &mut Blob, style: Style, value: &Value<'_>) -> Result<(), NoMemory>
    ensures { OnOk result (out.new.bytes ≡ out.old.bytes ++ said_text style (said_by value.now)) }
{
    match value {
        Value::Number(n) => put_decimal(out, *n),
        Value::Signed(z) => put_signed(out, *z),
        Value::Flag(flag) => out.push_all(flag_word(*flag)),
        Value::Bits(n) => put_bits(out, style, *n),
        Value::Bytes(bytes) => put_bytes(out, style, bytes),
        Value::Numbers(numbers) => put_numbers(out, numbers),
        Value::Address(address) => put_quoted_address(out, style, address),
        Value::Ipv4(address) => put_quoted_ipv4(out, style, address),
        Value::Addresses(addresses) => put_addresses(out, style, addresses),
        Value::Word(word) => put_word(out, style, word.as_bytes()),
    }
}

/// Appends a field.
#[tactic(auto, unfolding(crate::specs::Value::field_text))]
fn put_field(out: &mut Blob, style: Style, field: &Field<'_>) -> Result<(), NoMemory>
    ensures { OnOk result (out.new.bytes ≡ out.old.bytes ++ field_text style (told_by field.now)) }
{
    out.push_all(before_value(style, field.name))?;
    put_value(out, style, &field.value)
}

/// Appends fields, one behind the other.
pub(crate) fn put_fields(out: &mut Blob, style: Style, fields: &[Field<'_>]) -> Result<(), NoMemory>
    ensures { OnOk result (out.new.bytes ≡ out.old.bytes ++ fields_text style (map told_by fields.now)) }
{
    'fields: for field in fields {
        put_field(out, style, field)?;
    }
    Ok(())
}
