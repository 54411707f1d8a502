//! Which sockets a node opened, and to which other node.

ghost use Rattle.std.specs.Prelude.{◌≡◌, ◌≢◌, ◌<◌, ℕ, drop, get_or, length, slice_get, Some, IfOk, IfSome, OnOk};
ghost use Rattle.std.specs.List.{position};
ghost use Rattle.m2_fabric.specs.Sockets.{goes_to};
ghost use Rattle.m2_fabric.specs.Meeting.{acceptor, comes_from, other_than};

use crate::SocketId;
use m2_addr::Addr;
use m2_bytes::NoMemory;
use std::alloc::Global;

/// As many nodes can be named by the numbers that a holder takes.
pub(crate) const MOST_NODES: usize = 4_294_967_296;

/// Whether a socket comes from a node's address.
fn comes_from(nodes: &[Addr], node: u32, id: &SocketId) -> bool
    ensures { result ≡ comes_from id.now (slice_get nodes.now node) }
{
    match nodes.get(node as usize) {
        None => false,
        Some(at) => id.from_ip == at.ip && id.from_port == at.port,
    }
}

/// The first place at whose address a socket arrives.
fn place_of(nodes: &[Addr], id: &SocketId) -> Option<usize>
    ensures place { result ≡ position (λ at. goes_to at id.now) nodes.now }
    ensures within { IfSome result (λ place. place < length nodes.now) }
{
    nodes.iter().position(|at| id.goes_to(at))
}

/// A place as another node's number.
fn other_than(node: u32, place: Option<usize>) -> Option<u32>
    ensures other { result ≡ other_than node place }
    ensures differs { IfSome result (λ other. other ≢ node) }
    ensures place { IfSome result (λ other. place ≡ Some other) }
{
    match place {
        None => None,
        Some(other) => {
            if other == node as usize || MOST_NODES <= other {
                None
            } else {
                Some(other as u32)
            }
        }
    }
}

/// The node at whose address a socket arrives, if the given one opened it and it goes to another.
pub(crate) fn acceptor(nodes: &[Addr], node: u32, id: &SocketId) -> Option<u32>
    ensures acceptor { result ≡ acceptor nodes.now node id.now }
    ensures differs { IfSome result (λ other. other ≢ node) }
    ensures within { IfSome result (λ other. other < length nodes.now) }
{
    if !comes_from(nodes, node, id) {
        return None;
    }
    other_than(node, place_of(nodes, id))
}

/// How many sockets of a node were looked at.
pub(crate) fn looked_at(looked: &[usize], node: usize) -> usize
    ensures { result ≡ get_or looked.now node 0 }
{
    match looked.get(node) {
        None => 0,
        Some(count) => *count,
    }
}

/// So many sockets of a node were looked at. On Err for want of memory the counts of all nodes are unchanged.
pub(crate) fn set_looked(looked: &mut Vec<usize>, node: usize, count: usize) -> Result<(), NoMemory>
    ensures here { OnOk result (get_or looked.new.items node 0 ≡ count) }
    ensures others { OnOk result ((other : ℕ) → other ≢ node → get_or looked.new.items other 0 ≡ get_or looked.old.items other 0) }
{
    while looked.len() <= node {
        looked.push(0)?;
    }
    looked[node] = count;
    Ok(())
}

/// A copy of the sockets behind the first so many.
pub(crate) fn copy_from(
    alloc: Global,
    made: &[SocketId],
    looked: usize,
) -> Result<Vec<SocketId>, NoMemory>
    ensures { IfOk result (λ ids. ids.items ≡ drop looked made.now) }
{
    if made.len() <= looked {
        return Ok(Vec::new(alloc));
    }
    let (_, rest) = made.split_at(looked);
    Ok(Vec::from_slice(alloc, rest)?)
}
