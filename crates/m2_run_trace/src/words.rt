//! The words of which the lines are made.

ghost use Rattle.std.specs.Prelude.{◌≡◌, ◌++◌, OnOk};
ghost use Rattle.m2_run_trace.specs.Words.{journal_head, session_head, name_at, name_in, settle_line, socket_name, throttle_head, trail_head, turn_line};
ghost use Rattle.m2_trace.specs.Words.{number_word};

use crate::lists::at;
use m2_bytes::{Blob, NoMemory, put_decimal};
use m2_fabric::SocketId;
use m2_scenario::Node;
use m2_trace::{put_head, put_number};

/// The name of the node at this place; nothing where there is none.
pub(crate) fn name_of(nodes: &[Node], place: u32) -> &[u8]
    ensures { result.now ≡ name_in nodes.now place }
{
    match at(nodes, place as usize) {
        Some(node) => node.name.as_slice(),
        None => b"",
    }
}

/// The name of the first node that listens there; nothing where none does.
fn name_at(nodes: &[Node], ip: u32, port: u16) -> &[u8]
    ensures { result.now ≡ name_at nodes.now ip port }
{
    match nodes.split_first() {
        None => b"",
        Some((first, rest)) => {
            if first.at.ip == ip && first.at.port == port {
                first.name.as_slice()
            } else {
                name_at(rest, ip, port)
            }
        }
    }
}

/// Appends a socket as `A-B/N`, the N-th that A opened to B.
#[tactic(auto, unfolding(crate::specs::Words::socket_name))]
fn put_socket(out: &mut Blob, nodes: &[Node], socket: &SocketId) -> Result<(), NoMemory>
    ensures { OnOk result (out.new.bytes ≡ out.old.bytes ++ socket_name nodes.now socket.now) }
{
    out.push_all(name_at(nodes, socket.from_ip, socket.from_port))?;
    out.push_all(b"-")?;
    out.push_all(name_at(nodes, socket.to_ip, socket.to_port))?;
    out.push_all(b"/")?;
    put_decimal(out, socket.turn as u64)
}

/// Appends a word and a socket.
pub(crate) fn put_with_socket(
    out: &mut Blob,
    word: &[u8],
    nodes: &[Node],
    socket: &SocketId,
) -> Result<(), NoMemory>
    ensures { OnOk result (out.new.bytes ≡ out.old.bytes ++ (word.now ++ socket_name nodes.now socket.now)) }
{
    out.push_all(word)?;
    put_socket(out, nodes, socket)
}

/// Appends a word, a socket and a number.
pub(crate) fn put_moved(
    out: &mut Blob,
    word: &[u8],
    nodes: &[Node],
    socket: &SocketId,
    count: u32,
) -> Result<(), NoMemory>
    ensures { OnOk result (out.new.bytes ≡ out.old.bytes ++ (word.now ++ socket_name nodes.now socket.now ++ number_word count)) }
{
    put_with_socket(out, word, nodes, socket)?;
    put_number(out, count as u64)
}

/// Appends `turn NODE MOMENT`, of the node at this place.
#[tactic(auto, unfolding(crate::specs::Words::turn_line))]
pub fn put_turn(out: &mut Blob, nodes: &[Node], node: u32, moment: u64) -> Result<(), NoMemory>
    ensures { OnOk result (out.new.bytes ≡ out.old.bytes ++ turn_line (name_in nodes.now node) moment) }
{
    out.push_all(b"turn ")?;
    out.push_all(name_of(nodes, node))?;
    put_number(out, moment)?;
    out.push_all(b"\n")
}

/// Appends `settle 1`, with which a round begins.
pub fn put_settle(out: &mut Blob) -> Result<(), NoMemory>
    ensures { OnOk result (out.new.bytes ≡ out.old.bytes ++ settle_line) }
{
    out.push_all(b"settle 1\n")
}

/// Appends what a line begins with that tells what a half did.
#[tactic(auto, unfolding(crate::specs::Words::trail_head))]
pub(crate) fn begin_trail(out: &mut Blob, name: &[u8]) -> Result<(), NoMemory>
    ensures { OnOk result (out.new.bytes ≡ out.old.bytes ++ trail_head name.now) }
{
    out.push_all(b"  ")?;
    put_head(out, name, b"trail")
}

/// Appends what a line begins with that tells what the record towards this peer did.
#[tactic(auto, unfolding(crate::specs::Words::journal_head))]
pub(crate) fn begin_journal(out: &mut Blob, name: &[u8], peer: &[u8]) -> Result<(), NoMemory>
    ensures { OnOk result (out.new.bytes ≡ out.old.bytes ++ journal_head name.now peer.now) }
{
    out.push_all(b"  ")?;
    put_head(out, name, b"journal")?;
    out.push_all(b" ")?;
    out.push_all(peer)
}

/// Appends what a line begins with that tells what a throttle has out.
#[tactic(auto, unfolding(crate::specs::Words::throttle_head))]
pub(crate) fn begin_throttle(out: &mut Blob, name: &[u8]) -> Result<(), NoMemory>
    ensures { OnOk result (out.new.bytes ≡ out.old.bytes ++ throttle_head name.now) }
{
    out.push_all(b"  ")?;
    put_head(out, name, b"throttle")
}

/// Appends what a line begins with that tells where the record towards this peer stands.
#[tactic(auto, unfolding(crate::specs::Words::session_head))]
pub(crate) fn begin_session(out: &mut Blob, name: &[u8], peer: &[u8]) -> Result<(), NoMemory>
    ensures { OnOk result (out.new.bytes ≡ out.old.bytes ++ session_head name.now peer.now) }
{
    out.push_all(b"  ")?;
    put_head(out, name, b"session")?;
    out.push_all(b" ")?;
    out.push_all(peer)
}
