//! Whether all nodes of a run are still.

ghost use Rattle.std.specs.List.{AllByRecursion, flat_map};
ghost use Rattle.std.specs.Prelude.{◌≡◌, ◌≢◌, ◌+◌, ◌<◌, false, true, List, count_by, length, IfSome};
ghost use Rattle.std.specs.Bool.{OnTrue};
ghost use Rattle.std.specs.Option.{option_map};
ghost use Rattle.m2_node.specs.m2_script.m2_center.Center.{CenterNow};
ghost use Rattle.m2_node.specs.m2_script.m2_center.Idle.{is_idle};
ghost use Rattle.m2_dispatch.specs.declared.logged.Logged.{Logged};
ghost use Rattle.m2_fabric.specs.Log.{log_of};
ghost use Rattle.m2_run.specs.Still.{AllBelow, AreMetOf, AreStill, IsFoundAt, IsIdleAt, IsMet, IsMetAt, IsMetFrom, is_missing, is_missing_to, is_on, missing_from, missing_in, refused_by};

use m2_fabric::{EndLog, Port, SocketId};
use m2_node::{RunCenter, RunNode};
use m2_scenario::Node;

/// Whether these nodes are still at this moment: each that is on is idle, and each socket that one of them opened to
/// another is met.
#[tactic(auto, using(crate::proofs::Stillness::all_idle, crate::proofs::Stillness::all_met, crate::proofs::Stillness::all_found))]
pub(crate) fn are_still<P: Port>(nodes: &[Node], all: &[RunNode<'_, P>], now: u64) -> bool
    ensures { OnTrue result (AreStill now nodes.now all.now) }
{
    are_idle(nodes, all, now) && are_met(nodes, all) && are_found(nodes, all)
}

/// Whether the node at this place is on.
fn is_on(nodes: &[Node], k: usize) -> bool
    ensures { result ≡ is_on nodes.now k }
{
    match nodes.get(k) {
        None => false,
        Some(node) => node.started,
    }
}

// ---- idle

/// Whether each node that is on is idle.
fn are_idle<P: Port>(nodes: &[Node], all: &[RunNode<'_, P>], now: u64) -> bool
    ensures { OnTrue result (AllBelow (IsIdleAt now nodes.now all.now) (length all.now)) }
{
    'nodes: for k in 0..all.len() {
        if !is_idle_at(nodes, all, k, now) {
            return false;
        }
    }
    true
}

/// Whether the node at this place is, where it is on.
fn is_idle_at<P: Port>(nodes: &[Node], all: &[RunNode<'_, P>], k: usize, now: u64) -> bool
    requires { k < length all.now }
    ensures { OnTrue result (IsIdleAt now nodes.now all.now k) }
{
    if !is_on(nodes, k) {
        return true;
    }
    all_idle(all[k].centers(), now)
}

/// Whether each of these centers is idle.
fn all_idle<P: Port>(centers: &[RunCenter<P>], now: u64) -> bool
    ensures { OnTrue result (AllByRecursion (λ (c : CenterNow (List Logged)). is_idle now c ≡ true) centers.now) }
{
    'centers: for j in 0..centers.len() {
        if !centers[j].idle(now) {
            return false;
        }
    }
    true
}

// ---- sockets between nodes

/// Whether each socket that a node opened to another is met.
fn are_met<P: Port>(nodes: &[Node], all: &[RunNode<'_, P>]) -> bool
    ensures { OnTrue result (AllBelow (λ k. AllBelow (λ j. k ≢ j → IsMetAt nodes.now all.now k j) (length all.now)) (length all.now)) }
{
    'nodes: for k in 0..all.len() {
        if !is_met_everywhere(nodes, all, k) {
            return false;
        }
    }
    true
}

/// Whether each that the node at place k opened is.
fn is_met_everywhere<P: Port>(nodes: &[Node], all: &[RunNode<'_, P>], k: usize) -> bool
    requires { k < length all.now }
    ensures { OnTrue result (AllBelow (λ j. k ≢ j → IsMetAt nodes.now all.now k j) (length all.now)) }
{
    'nodes: for j in 0..all.len() {
        if !is_met_at(nodes, all, k, j) {
            return false;
        }
    }
    true
}

/// Whether each that it opened to the node at place j is, where both are on.
fn is_met_at<P: Port>(nodes: &[Node], all: &[RunNode<'_, P>], k: usize, j: usize) -> bool
    requires near { k < length all.now }
    requires far { j < length all.now }
    ensures { OnTrue result (k ≢ j → IsMetAt nodes.now all.now k j) }
{
    if k == j || !is_on(nodes, k) || !is_on(nodes, j) {
        return true;
    }
    match nodes.get(j) {
        None => true,
        Some(to) => is_met_from(to, &all[k], &all[j]),
    }
}

/// Whether each that one node opened to this other one is.
fn is_met_from<P: Port>(to: &Node, near: &RunNode<'_, P>, far: &RunNode<'_, P>) -> bool
    ensures { OnTrue result (IsMetFrom to.now.at near.now far.now) }
{
    are_met_over(to, near.centers(), near, far)
}

/// Whether each that the ports of these centers of it opened is.
fn are_met_over<P: Port>(
    to: &Node,
    centers: &[RunCenter<P>],
    near: &RunNode<'_, P>,
    far: &RunNode<'_, P>,
) -> bool
    ensures { OnTrue result (AreMetOf to.now.at near.now far.now (flat_map (λ (c : CenterNow (List Logged)). c.port.made) centers.now)) }
{
    'centers: for center in centers {
        if !are_met_of(to, center.made().as_slice(), near, far) {
            return false;
        }
    }
    true
}

/// Whether each of these that it opened to this other one is.
fn are_met_of<P: Port>(
    to: &Node,
    made: &[SocketId],
    near: &RunNode<'_, P>,
    far: &RunNode<'_, P>,
) -> bool
    ensures { OnTrue result (AreMetOf to.now.at near.now far.now made.now) }
{
    'sockets: for id in made {
        if id.goes_to(&to.at) && !is_met(near.log(id), far.log(id)) {
            return false;
        }
    }
    true
}

/// Whether a socket with these two ends is met.
fn is_met(near: Option<&EndLog>, far: Option<&EndLog>) -> bool
    ensures { OnTrue result (IsMet (option_map (λ l. log_of l.now) near.entry) (option_map (λ l. log_of l.now) far.entry)) }
{
    match near {
        None => true,
        Some(near) => match far {
            None => true,
            Some(far) => near.closed || are_passed(near, far),
        },
    }
}

/// Whether both ends are open, and each has got all that the other has put.
fn are_passed(near: &EndLog, far: &EndLog) -> bool
    ensures { OnTrue result (((log_of near.now).closed ≡ false) × ((log_of far.now).closed ≡ false) × ((log_of near.now).got ≡ (log_of far.now).put) × ((log_of far.now).got ≡ (log_of near.now).put)) }
{
    if near.closed || far.closed {
        return false;
    }
    is_passed(near, far) && is_passed(far, near)
}

/// Whether the one end has got all that the other has put.
fn is_passed(to: &EndLog, from: &EndLog) -> bool
    ensures { OnTrue result ((log_of to.now).got ≡ (log_of from.now).put) }
{
    to.got.as_slice() == from.put.as_slice()
}

// ---- sockets of which the other node has no end

/// Whether no node that is on lacks more ends than it has refused.
fn are_found<P: Port>(nodes: &[Node], all: &[RunNode<'_, P>]) -> bool
    ensures { OnTrue result (AllBelow (IsFoundAt nodes.now all.now) (length all.now)) }
{
    'nodes: for j in 0..all.len() {
        if !is_found_at(nodes, all, j) {
            return false;
        }
    }
    true
}

/// Whether the node at place j doesn't, where it is on.
fn is_found_at<P: Port>(nodes: &[Node], all: &[RunNode<'_, P>], j: usize) -> bool
    requires { j < length all.now }
    ensures { OnTrue result (IsFoundAt nodes.now all.now j) }
{
    if !is_on(nodes, j) {
        return true;
    }
    let mut rest = refused_at(all[j].centers());
    'nodes: for k in 0..all.len() {
        match less_missing(nodes, all, j, k, rest) {
            None => return false,
            Some(less) => rest = less,
        }
    }
    true
}

/// How many accepts failed at the first of these centers, which alone accepts for its node.
fn refused_at<P: Port>(centers: &[RunCenter<P>]) -> u64
    ensures { result ≡ refused_by centers.now }
{
    match centers.first() {
        None => 0,
        Some(first) => first.refused(),
    }
}

/// This number less the ends that it lacks of sockets that the node at place k, where it is on, opened to it; none where it lacks
/// more.
fn less_missing<P: Port>(
    nodes: &[Node],
    all: &[RunNode<'_, P>],
    j: usize,
    k: usize,
    rest: u64,
) -> Option<u64>
    requires near { k < length all.now }
    requires far { j < length all.now }
    ensures { IfSome result (λ less. less + missing_from nodes.now all.now j k ≡ rest) }
{
    if k == j || !is_on(nodes, k) {
        return Some(rest);
    }
    match nodes.get(j) {
        None => Some(rest),
        Some(to) => less_missing_in(to, &all[k], &all[j], rest),
    }
}

/// The same of those that one node opened to this other one.
fn less_missing_in<P: Port>(
    to: &Node,
    near: &RunNode<'_, P>,
    far: &RunNode<'_, P>,
    rest: u64,
) -> Option<u64>
    ensures { IfSome result (λ less. less + missing_in to.now.at near.now far.now ≡ rest) }
{
    less_missing_over(to, near.centers(), near, far, rest)
}

/// The same of those that the ports of these centers of it opened.
fn less_missing_over<P: Port>(
    to: &Node,
    centers: &[RunCenter<P>],
    near: &RunNode<'_, P>,
    far: &RunNode<'_, P>,
    rest: u64,
) -> Option<u64>
    ensures { IfSome result (λ less. less + count_by (is_missing_to to.now.at near.now far.now) (flat_map (λ (c : CenterNow (List Logged)). c.port.made) centers.now) ≡ rest) }
{
    let mut rest = rest;
    'centers: for center in centers {
        match rest.checked_sub(missing_of(to, center.made().as_slice(), near, far)) {
            None => return None,
            Some(less) => rest = less,
        }
    }
    Some(rest)
}

/// How many ends it lacks of these sockets.
fn missing_of<P: Port>(
    to: &Node,
    made: &[SocketId],
    near: &RunNode<'_, P>,
    far: &RunNode<'_, P>,
) -> u64
    ensures { result ≡ count_by (is_missing_to to.now.at near.now far.now) made.now }
{
    let mut missing: u64 = 0;
    'sockets: for i in 0..made.len() {
        if is_missing_to(to, near, far, &made[i]) {
            missing += 1;
        }
    }
    missing
}

/// Whether this socket is one.
fn is_missing_to<P: Port>(
    to: &Node,
    near: &RunNode<'_, P>,
    far: &RunNode<'_, P>,
    id: &SocketId,
) -> bool
    ensures { result ≡ is_missing_to to.now.at near.now far.now id.now }
{
    id.goes_to(&to.at) && is_missing(near.log(id), far.log(id))
}

/// Whether the opener's end is open and the other node has none.
fn is_missing(near: Option<&EndLog>, far: Option<&EndLog>) -> bool
    ensures { result ≡ is_missing (option_map (λ l. log_of l.now) near.entry) (option_map (λ l. log_of l.now) far.entry) }
{
    match near {
        None => false,
        Some(near) => match far {
            None => !near.closed,
            Some(_) => false,
        },
    }
}
