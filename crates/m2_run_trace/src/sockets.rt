//! Sockets on which a node may still have a half.

ghost use Rattle.std.specs.Prelude.{◌≡◌, ◌∷◌, ◌++◌, [], IfOk, OnOk, drop, filter, map, not};
ghost use Rattle.std.specs.List.{flat_map};
ghost use Rattle.std.specs.Option.{option_map};
ghost use Rattle.m2_promise.specs.m2_script.m2_record.RecordNow.{RecordNow};
ghost use Rattle.m2_promise.specs.m2_script.m2_record.Sources.{trail_at};
ghost use Rattle.m2_run_trace.specs.declared.marks.EndMark.{EndMark};
ghost use Rattle.m2_run_trace.specs.Sockets.{comes_to, is_over, left_of, sockets_left, trail_in};
ghost use Rattle.m2_run_trace.specs.Telling.{telling_at};
ghost use Rattle.m2_trail.specs.Trails.{trail_now};

use crate::lists::behind;
use crate::marks::{EndMark, Marks};
use crate::telling::{Teller, TracedCluster};
use m2_bytes::{Items, NoMemory};
use m2_fabric::{End, SocketId, SocketIdList};
use m2_promise::Record;
use m2_scenario::Node;
use m2_trail::Trail;
use std::alloc::Global;

/// Whether the socket was opened to the node.
pub(crate) fn comes_to(teller: &Teller<'_>, socket: &SocketId) -> bool
    ensures { result ≡ comes_to teller.now socket.now }
{
    socket.goes_to(&teller.own.at)
}

/// The trail of the half on this socket, if one of the records has taken it.
pub(crate) fn trail_in<'a, E: End>(records: &'a [Record<E>], socket: &SocketId) -> Option<&'a Trail>
    ensures { option_map (λ t. trail_now t.now) result ≡ trail_in records.now socket.now }
{
    match records.split_first() {
        None => None,
        Some((first, rest)) => match trail_on(first.trails().as_slice(), socket) {
            Some(trail) => Some(trail),
            None => trail_in(rest, socket),
        },
    }
}

/// The first of these trails that is of the socket.
fn trail_on<'a>(trails: &'a [Trail], socket: &SocketId) -> Option<&'a Trail>
    ensures { option_map (λ t. trail_now t.now) result ≡ trail_at (map trail_now trails.now) socket.now }
{
    for trail in trails {
        if socket.is_same(&trail.socket) {
            return Some(trail);
        }
    }
    None
}

/// Whether the node's half on this socket is over: its end is closed, or a record has taken it.
fn is_over(teller: &Teller<'_>, socket: &SocketId) -> bool
    ensures { result ≡ is_over teller.now socket.now }
{
    if !comes_to(teller, socket) {
        return false;
    }
    match teller.log(socket) {
        None => false,
        Some(log) => log.closed || trail_in(teller.center.records(), socket).is_some(),
    }
}

/// Those of the marked sockets on which a half may still do something, and behind them those that the node at this place
/// has opened since it was marked.
pub fn sockets_left(
    alloc: Global,
    nodes: &[Node],
    cluster: &TracedCluster,
    node: u32,
    marks: &Marks,
) -> Result<SocketIdList, NoMemory>
    ensures { IfOk result (λ l. l.items ≡ left_of (telling_at nodes.now cluster.now.nodes node) marks.now) }
{
    match Teller::of(nodes, cluster, node) {
        None => Ok(Items::empty(alloc)),
        Some(teller) => left_at(alloc, &teller, marks),
    }
}

/// The same of a node.
fn left_at(alloc: Global, teller: &Teller<'_>, marks: &Marks) -> Result<SocketIdList, NoMemory>
    ensures { IfOk result (λ l. l.items ≡ sockets_left teller.now marks.now) }
{
    let mut left = Items::empty(alloc);
    add_going(&mut left, teller, marks.ends.as_slice())?;
    let made = teller.center.made();
    add_opened(&mut left, teller, behind(made.as_slice(), marks.made))?;
    Ok(left)
}

/// Adds those on which the node's half isn't over.
fn add_going(
    left: &mut SocketIdList,
    teller: &Teller<'_>,
    marks: &[EndMark],
) -> Result<(), NoMemory>
    ensures { OnOk result (left.new.items ≡ left.old.items ++ filter (λ s. not (is_over teller.now s)) (map (λ (e : EndMark). e.socket) marks.now)) }
{
    for mark in marks {
        if !is_over(teller, &mark.socket) {
            add(left, &mark.socket)?;
        }
    }
    Ok(())
}

/// Adds those that weren't opened to the node.
fn add_opened(
    left: &mut SocketIdList,
    teller: &Teller<'_>,
    sockets: &[SocketId],
) -> Result<(), NoMemory>
    ensures { OnOk result (left.new.items ≡ left.old.items ++ filter (λ s. not (comes_to teller.now s)) sockets.now) }
{
    for socket in sockets {
        if !comes_to(teller, socket) {
            add(left, socket)?;
        }
    }
    Ok(())
}

fn add(left: &mut SocketIdList, socket: &SocketId) -> Result<(), NoMemory>
    ensures { OnOk result (left.new.items ≡ left.old.items ++ socket.now ∷ []) }
{
    match left.push(*socket) {
        Ok(()) => Ok(()),
        Err(_) => Err(NoMemory),
    }
}
