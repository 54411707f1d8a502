//! Whether each socket of nodes that have ended is one of its own.

ghost use Rattle.std.specs.Prelude.{◌≡◌, ◌<◌, ◌++◌, IfOk, OnOk, length};
ghost use Rattle.std.specs.Bool.{OnTrue};
ghost use Rattle.std.specs.List.{AllByRecursion, IsDistinct};
ghost use Rattle.m2_fabric.specs.Sockets.{same_socket};
ghost use Rattle.m2_run.specs.Once.{HasEachOnce, IsUnjudgedAt, sockets_of};
ghost use Rattle.m2_run.specs.Opened.{HaveEachOnce, IsEachOnceAt, made_in};

use crate::ending::{EndedCenter, Opened};
use m2_addr::Addr;
use m2_bytes::NoMemory;
use m2_fabric::{End, Port, SocketId, is_among};
use m2_scenario::Node;
use m2_trail::Loose;
use std::alloc::Global;

/// Each socket of these nodes is one of its own, and nothing was judged of the halves that are in none of their centers. Err is
/// want of memory: a port makes each socket once, all to one address are opened by one thread, one thread alone accepts, and
/// its door judges nothing.
pub(crate) fn each_once<P: Port>(
    alloc: Global,
    nodes: &[Node],
    all: &[Opened<'_, P>],
) -> Result<(), NoMemory>
    requires { length all.now ≡ length nodes.now }
    ensures { IfOk result (λ _. HaveEachOnce nodes.now all.now) }
{
    'nodes: for k in 0..all.len() {
        is_once_at(alloc, nodes, all, k)?;
    }
    Ok(())
}

/// Each of the node at place k is.
fn is_once_at<P: Port>(
    alloc: Global,
    nodes: &[Node],
    all: &[Opened<'_, P>],
    k: usize,
) -> Result<(), NoMemory>
    requires node { k < length nodes.now }
    requires opened { k < length all.now }
    ensures { IfOk result (λ _. IsEachOnceAt nodes.now all.now k) }
{
    node_once(alloc, &nodes[k].at, &all[k])?;
    Ok(())
}

/// Each of one, which is at this address.
#[tactic(auto, using(crate::proofs::KeptOnce::once_in))]
fn node_once<P: Port>(alloc: Global, at: &Addr, node: &Opened<'_, P>) -> Result<(), NoMemory>
    ensures { IfOk result (λ _. HasEachOnce at.now (made_in node.now.centers) (node.now.left.at_door ++ node.now.left.on_way)) }
{
    let mut sockets = Vec::new(alloc);
    add_made(node.centers.as_slice(), &mut sockets)?;
    add_halves(at, node.left.at_door.as_slice(), &mut sockets)?;
    add_halves(at, node.left.on_way.as_slice(), &mut sockets)?;
    are_distinct(sockets)?;
    Ok(())
}

/// The sockets that the ports of these threads made go last.
#[tactic(auto, using(crate::proofs::KeptOnce::made_more))]
fn add_made<P: Port>(
    centers: &[EndedCenter<'_, P>],
    into: &mut Vec<SocketId>,
) -> Result<(), NoMemory>
    ensures { OnOk result (into.new.items ≡ into.old.items ++ made_in centers.now) }
{
    'centers: for center in centers {
        into.extend_from_slice(center.made.as_slice())?;
    }
    Ok(())
}

/// Those of these halves go last, of which nothing was judged, and which go to this address.
#[tactic(auto, using(crate::proofs::KeptOnce::sockets_more, m2_node::proofs::Places::all_more))]
fn add_halves<E: End>(
    at: &Addr,
    halves: &[Loose<E>],
    into: &mut Vec<SocketId>,
) -> Result<(), NoMemory>
    ensures sockets { OnOk result (into.new.items ≡ into.old.items ++ sockets_of halves.now) }
    ensures unjudged { OnOk result (AllByRecursion (IsUnjudgedAt at.now) halves.now) }
{
    'halves: for half in halves {
        if !is_unjudged_at(at, half) {
            return Err(NoMemory);
        }
        into.push(half.id())?;
    }
    Ok(())
}

/// Whether one is such a half.
fn is_unjudged_at<E: End>(at: &Addr, half: &Loose<E>) -> bool
    ensures { OnTrue result (IsUnjudgedAt at.now half.now) }
{
    half.id().goes_to(at) && half.trail().judged.is_empty()
}

/// No two of these sockets are one.
#[tactic(auto, using(crate::proofs::Times::distinct_more))]
fn are_distinct(mut sockets: Vec<SocketId>) -> Result<(), NoMemory>
    ensures { IfOk result (λ _. IsDistinct same_socket sockets.items) }
{
    'sockets: while let Some(socket) = sockets.pop() {
        if is_among(&socket, sockets.as_slice()) {
            return Err(NoMemory);
        }
    }
    Ok(())
}
