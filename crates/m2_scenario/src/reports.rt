//! The report of a run: the lines that `sim` and `run` print.

ghost use Rattle.std.specs.Prelude.{◌≡◌, ◌<◌, ◌++◌, true, All, length, map, filter, codes, OnOk, OnErr};
ghost use Rattle.std.specs.List.{flat_map};
ghost use Rattle.m2_bytes.specs.Hexadecimal.{hex_text};
ghost use Rattle.m2_message.specs.Message.{content_of};
ghost use Rattle.m2_queues.specs.ByRank.{by_rank};
ghost use Rattle.m2_dispatch.specs.Heard.{heard_of, heard_by, is_message_from};
ghost use Rattle.m2_scenario.specs.Text.{word};
ghost use Rattle.m2_scenario.specs.Valid.{IsValid};
ghost use Rattle.m2_scenario.specs.Report.{path_word, dispatch_line, reset_line, line_of, is_reset_by, path_rank, rank_of, sorted_of};
ghost use Rattle.m2_scenario.specs.Report.{name_of, node_lines, report_of, told_by, heard_in, IsPeerAmong, IsOfNodes, AreLogsOf};

use crate::{Node, Scenario};
use m2_bytes::{Blob, Items, NoMemory, put_decimal, put_hex};
use m2_dispatch::{Logged, LoggedList};
use m2_message::Message;
use m2_policy::{Key, Path};
use m2_queues::sort_by_rank;
use std::alloc::Global;

/// For each node of a scenario, in its order, what its dispatchers were called with.
pub type LogsList = Items<LoggedList>;

/// Appends the report: a line for each call in the logs, node by node in the scenario's order.
///
/// A dispatch is `NODE from PEER PRIORITY PATH KIND FRONT MIDDLE DATA`, the path `fast` or `queued`
/// and the three parts hexadecimal words; a reset by the peer is `NODE reset PEER`. A node's lines
/// come in the order of its calls. Sorted they come for each peer in the scenario's order: by
/// priority, the greatest first, then fast before queued, then in the order of the calls, and
/// after them the peer's resets. On Err the bytes of `out` are as before.
pub fn report(
    alloc: Global,
    s: &Scenario,
    logs: &LogsList,
    sorted: bool,
    out: &mut Blob,
) -> Result<(), NoMemory>
    requires valid { IsValid s.now }
    requires logs { AreLogsOf s.now.nodes.items logs.now.items }
    ensures ok { OnOk result (out.new.bytes ≡ out.old.bytes ++ report_of sorted s.now.nodes.items (map heard_in logs.now.items)) }
    ensures err { OnErr result (out.new.bytes ≡ out.old.bytes) }
{
    let mut text = Blob::empty(alloc);
    put_nodes(
        alloc,
        &mut text,
        s.nodes.as_slice(),
        logs.as_slice(),
        sorted,
    )?;
    out.push_all(text.as_slice())
}

// The lines of each node.
fn put_nodes(
    alloc: Global,
    text: &mut Blob,
    nodes: &[Node],
    logs: &[LoggedList],
    sorted: bool,
) -> Result<(), NoMemory>
    requires { AreLogsOf nodes.now logs.now }
    ensures { OnOk result (text.new.bytes ≡ text.old.bytes ++ report_of sorted nodes.now (map heard_in logs.now)) }
{
    for (node, log) in nodes.iter().zip(logs) {
        put_node(
            alloc,
            text,
            nodes,
            node.name.as_slice(),
            log.as_slice(),
            sorted,
        )?;
    }
    Ok(())
}

// The lines of one node.
fn put_node(
    alloc: Global,
    text: &mut Blob,
    nodes: &[Node],
    node: &[u8],
    log: &[Logged],
    sorted: bool,
) -> Result<(), NoMemory>
    requires { All (IsOfNodes (length nodes.now)) log.now }
    ensures { OnOk result (text.new.bytes ≡ text.old.bytes ++ node_lines sorted (map name_of nodes.now) node.now (heard_by log.now)) }
{
    if sorted {
        put_sorted(alloc, text, nodes, node, log)
    } else {
        put_calls(text, nodes, node, log)
    }
}

// The lines of calls, sorted: of each peer.
fn put_sorted(
    alloc: Global,
    text: &mut Blob,
    nodes: &[Node],
    node: &[u8],
    log: &[Logged],
) -> Result<(), NoMemory>
    requires { All (IsOfNodes (length nodes.now)) log.now }
    ensures { OnOk result (text.new.bytes ≡ text.old.bytes ++ node_lines true (map name_of nodes.now) node.now (heard_by log.now)) }
{
    let mut calls = OfPeer {
        messages: Vec::new(alloc),
        resets: Vec::new(alloc),
    };
    for peer in 0..nodes.len() {
        put_peer(text, nodes, node, log, peer, &mut calls)?;
    }
    Ok(())
}

// The calls of one peer. The vectors are kept from peer to peer.
#[derive(Debug, Drop)]
struct OfPeer<'a> {
    messages: Vec<&'a Logged>,
    resets: Vec<&'a Logged>,
}

// The lines of a peer's calls, sorted: its messages, and then its resets.
fn put_peer<'a>(
    text: &mut Blob,
    nodes: &[Node],
    node: &[u8],
    log: &'a [Logged],
    peer: usize,
    calls: &mut OfPeer<'a>,
) -> Result<(), NoMemory>
    requires { All (IsOfNodes (length nodes.now)) log.now }
    ensures { OnOk result (text.new.bytes ≡ text.old.bytes ++ flat_map (line_of (map name_of nodes.now) node.now) (sorted_of (heard_by log.now) peer)) }
{
    gather(calls, log, peer)?;
    sort_calls(&mut calls.messages)?;
    put_gathered(text, nodes, node, calls.messages.as_slice())?;
    put_gathered(text, nodes, node, calls.resets.as_slice())
}

// The calls of a peer, in place of what the vectors had.
fn gather<'a>(calls: &mut OfPeer<'a>, log: &'a [Logged], peer: usize) -> Result<(), NoMemory>
    ensures messages { OnOk result (told_by calls.new.messages.items ≡ filter (is_message_from peer) (heard_by log.now)) }
    ensures resets { OnOk result (told_by calls.new.resets.items ≡ filter (is_reset_by peer) (heard_by log.now)) }
{
    calls.messages.clear();
    calls.resets.clear();
    for call in log {
        if call.is_message_from(peer) {
            calls.messages.push(call)?;
        } else if is_reset_by(call, peer) {
            calls.resets.push(call)?;
        }
    }
    Ok(())
}

// Puts calls in the order of their ranks, the greatest first.
fn sort_calls(calls: &mut Vec<&Logged>) -> Result<(), NoMemory>
    ensures { OnOk result (told_by calls.new.items ≡ by_rank rank_of (told_by calls.old.items)) }
{
    sort_by_rank(calls, |call| rank(call))
}

fn is_reset_by(call: &Logged, peer: usize) -> bool
    ensures { result ≡ is_reset_by peer (heard_of call.now) }
{
    match call {
        Logged::Message { .. } => false,
        Logged::Reset { peer: by } => *by as usize == peer,
    }
}

// The greater the sooner its line comes.
fn rank(call: &Logged) -> u64
    ensures { result ≡ rank_of (heard_of call.now) }
{
    match call {
        Logged::Message { key, .. } => key.priority as u64 * 2 + path_rank(key.path),
        Logged::Reset { .. } => 0,
    }
}

fn path_rank(path: Path) -> u64
    ensures { result ≡ path_rank path }
{
    match path {
        Path::Fast => 1,
        Path::Queued => 0,
    }
}

// The lines of calls that were gathered, in their order.
fn put_gathered(
    text: &mut Blob,
    nodes: &[Node],
    node: &[u8],
    calls: &[&Logged],
) -> Result<(), NoMemory>
    requires { All (IsPeerAmong (length nodes.now)) (told_by calls.now) }
    ensures { OnOk result (text.new.bytes ≡ text.old.bytes ++ flat_map (line_of (map name_of nodes.now) node.now) (told_by calls.now)) }
{
    for call in calls {
        put_call(text, nodes, node, call)?;
    }
    Ok(())
}

// The lines of calls, in their order.
fn put_calls(text: &mut Blob, nodes: &[Node], node: &[u8], log: &[Logged]) -> Result<(), NoMemory>
    requires { All (IsOfNodes (length nodes.now)) log.now }
    ensures { OnOk result (text.new.bytes ≡ text.old.bytes ++ flat_map (line_of (map name_of nodes.now) node.now) (heard_by log.now)) }
{
    for call in log {
        put_call(text, nodes, node, call)?;
    }
    Ok(())
}

// The line of a call.
fn put_call(text: &mut Blob, nodes: &[Node], node: &[u8], call: &Logged) -> Result<(), NoMemory>
    requires { IsOfNodes (length nodes.now) call.now }
    ensures { OnOk result (text.new.bytes ≡ text.old.bytes ++ line_of (map name_of nodes.now) node.now (heard_of call.now)) }
{
    match call {
        Logged::Message {
            peer,
            key,
            message,
            ..
        } => put_dispatch(text, node, name_at(nodes, *peer), key, message),
        Logged::Reset { peer } => put_reset(text, node, name_at(nodes, *peer)),
    }
}

// The name of the node at a place.
fn name_at(nodes: &[Node], place: u32) -> &[u8]
    requires { place < length nodes.now }
    ensures { result.now ≡ word (map name_of nodes.now) place }
{
    nodes[place as usize].name.as_slice()
}

fn path_word(path: Path) -> &'static [u8]
    ensures { result.now ≡ path_word path }
{
    match path {
        Path::Fast => b"fast",
        Path::Queued => b"queued",
    }
}

/// Appends `NODE from PEER PRIORITY PATH KIND FRONT MIDDLE DATA` and a line feed, with these names of the node and the
/// peer.
pub fn put_dispatch(
    out: &mut Blob,
    node: &[u8],
    peer: &[u8],
    key: &Key,
    message: &Message,
) -> Result<(), NoMemory>
    ensures { OnOk result (out.new.bytes ≡ out.old.bytes ++ dispatch_line node.now peer.now key.now (content_of message.now)) }
{
    out.push_all(node)?;
    out.push_all(b" from ")?;
    out.push_all(peer)?;
    out.push_all(b" ")?;
    put_decimal(out, key.priority as u64)?;
    out.push_all(b" ")?;
    out.push_all(path_word(key.path))?;
    out.push_all(b" ")?;
    put_decimal(out, message.header.kind as u64)?;
    put_part(out, message.front.as_slice())?;
    put_part(out, message.middle.as_slice())?;
    put_part(out, message.tail.as_slice())?;
    out.push_all(b"\n")?;
    Ok(())
}

// A space and the hexadecimal word.
fn put_part(out: &mut Blob, part: &[u8]) -> Result<(), NoMemory>
    ensures { OnOk result (out.new.bytes ≡ out.old.bytes ++ codes " " ++ hex_text part.now) }
{
    out.push_all(b" ")?;
    put_hex(out, part)
}

/// Appends `NODE reset PEER` and a line feed.
pub fn put_reset(out: &mut Blob, node: &[u8], peer: &[u8]) -> Result<(), NoMemory>
    ensures { OnOk result (out.new.bytes ≡ out.old.bytes ++ reset_line node.now peer.now) }
{
    out.push_all(node)?;
    out.push_all(b" reset ")?;
    out.push_all(peer)?;
    out.push_all(b"\n")?;
    Ok(())
}
