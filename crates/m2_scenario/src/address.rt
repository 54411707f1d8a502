//! A node's address as it is written, IP:PORT/NONCE.

ghost use Rattle.std.specs.Prelude.{◌≡◌, ◌≤◌, Ok, Err, MatchResult, IfOk};
ghost use Rattle.m2_addr.specs.declared.addr.TheConstants.Addr.{MSGR2};
ghost use Rattle.m2_scenario.specs.Address.{parts, octet_of, ip_of, address_of};

use crate::kind::Kind;
use crate::text::cut;
use crate::word::read_number;
use m2_addr::Addr;

fn parts(word: &[u8], mark: u8) -> Result<(&[u8], &[u8]), Kind>
    ensures { MatchResult result (λ p. parts mark word.now ≡ Ok (p.0.now, p.1.now)) (λ k. parts mark word.now ≡ Err k) }
{
    match cut(word, mark) {
        Some(found) => Ok(found),
        None => Err(Kind::Address),
    }
}

fn octet(word: &[u8]) -> Result<u8, Kind>
    ensures { result ≡ octet_of word.now }
{
    Ok(read_number(Kind::Address, 0, 255, word)? as u8)
}

#[tactic(auto, unfolding(crate::specs::Address::ip_of))]
fn ip(word: &[u8]) -> Result<u32, Kind>
    ensures { result ≡ ip_of word.now }
{
    let (first, rest) = parts(word, b'.')?;
    let (second, rest) = parts(rest, b'.')?;
    let (third, fourth) = parts(rest, b'.')?;
    let octets = [octet(first)?, octet(second)?, octet(third)?, octet(fourth)?];
    Ok(u32::from_be_bytes(octets))
}

/// The address of msgr2 that a word spells; a word that spells none is of kind `Address`.
#[tactic(auto, unfolding(crate::specs::Address::address_of))]
pub fn read_address(word: &[u8]) -> Result<Addr, Kind>
    ensures value { result ≡ address_of word.now }
    ensures kind { IfOk result (λ at. at.kind ≡ MSGR2) }
{
    let (socket, nonce) = parts(word, b'/')?;
    let (host, port) = parts(socket, b':')?;
    let ip = ip(host)?;
    let port = read_number(Kind::Address, 1, 65535, port)? as u16;
    let nonce = read_number(Kind::Address, 0, 4294967295, nonce)? as u32;
    Ok(Addr {
        kind: Addr::MSGR2,
        nonce,
        ip,
        port,
    })
}
