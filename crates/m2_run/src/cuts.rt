//! Where the sockets of nodes break, and that each end of a run broke there.

ghost use Rattle.std.specs.Prelude.{◌≡◌, ◌≤◌, IfOk, length};
ghost use Rattle.m2_fabric.specs.CutEnd.{shown};
ghost use Rattle.m2_run.specs.Cuts.{AreCutsOf, IsEndOver, bound_of, bytes_in, cuts_for, same_way, turn_of};
ghost use Rattle.m2_scenario.specs.declared.limits.TheConstants.{MOST_NODES};

use m2_bytes::NoMemory;
use m2_fabric::{Cut, CutEnd, CutList, End, SocketId};
use m2_node::cuts_of;
use m2_scenario::{Line, MOST_NODES, Node};
use std::alloc::Global;

/// The cuts of the sockets that each node opens, in the order of the nodes.
pub(crate) fn cuts_of_all(
    alloc: Global,
    nodes: &[Node],
    lines: &[Line],
) -> Result<Vec<CutList>, NoMemory>
    requires { length nodes.now ≤ MOST_NODES }
    ensures { IfOk result (λ all. AreCutsOf nodes.now lines.now all.items) }
{
    let mut all = Vec::with_capacity(alloc, nodes.len())?;
    'nodes: for k in 0..nodes.len() {
        let cuts = cuts_of(alloc, nodes, lines, k as u32)?;
        all.push(cuts)?;
    }
    Ok(all)
}

/// The end inside. Err is want of memory: each end of a node breaks where a cut of its own says, and no other does.
pub(crate) fn open_end<E: End>(
    end: CutEnd<E>,
    cuts: &[Cut],
    made: &[SocketId],
) -> Result<E, NoMemory>
    ensures { IfOk result (λ inner. IsEndOver (bound_of cuts.now made.now (shown end).id) (shown end) (E.seen inner)) }
{
    end.is_cut_right();
    if end.bound() != bound_of(cuts, made, &end.id()) {
        return Err(NoMemory);
    }
    Ok(end.into_end())
}

/// After how many bytes this socket breaks, of these that a node made and with these cuts of its sockets, if it does.
fn bound_of(cuts: &[Cut], made: &[SocketId], id: &SocketId) -> Option<u64>
    ensures { result ≡ bound_of cuts.now made.now id.now }
{
    if cuts.is_empty() {
        return None;
    }
    match turn_of(made, id) {
        None => None,
        Some(turn) => bytes_for(cuts, id, turn),
    }
}

/// The place of a socket among those of these that go where it does.
fn turn_of(made: &[SocketId], id: &SocketId) -> Option<usize>
    ensures { result ≡ turn_of made.now id.now }
{
    made.iter()
        .filter(|other| is_same_way(id, other))
        .position(|other| id.is_same(other))
}

/// Whether both go to one ip and port.
fn is_same_way(id: &SocketId, other: &SocketId) -> bool
    ensures { result ≡ same_way id.now other.now }
{
    id.to_ip == other.to_ip && id.to_port == other.to_port
}

/// The bytes of the cut at this place among those of sockets that go where this one does.
fn bytes_for(cuts: &[Cut], id: &SocketId, turn: usize) -> Option<u64>
    ensures { result ≡ bytes_in (cuts_for cuts.now id.now) turn }
{
    let mut left = turn;
    for cut in cuts {
        if id.goes_to(&cut.to) {
            if left == 0 {
                return Some(cut.bytes);
            }
            left -= 1;
        }
    }
    None
}
