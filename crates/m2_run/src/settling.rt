//! Turns on the caller's thread, until nothing is left or all has been still for long enough.

ghost use Rattle.std.specs.Bool.{OnTrue};
ghost use Rattle.std.specs.List.{list_any};
ghost use Rattle.std.specs.Prelude.{◌≡◌, ◌<◌, ◌≤◌, ◌^◌, ◌⊎◌, IfOk, IfSome, OnOk, fold, length};
ghost use Rattle.m2_node.specs.m2_links_go_on.Course.{is_productive};
ghost use Rattle.m2_node.specs.declared.end.RunEnd.{RunEnd};
ghost use Rattle.m2_run.specs.Kept.{last_in, last_of, later_of, left_of};
ghost use Rattle.m2_run.specs.Ran.{HasStalled};
ghost use Rattle.m2_run.specs.Settling.{HaveGoneOn, IsSettled, OneNodeDoes};
ghost use Rattle.m2_node.specs.Way.{AllGoOn, AllPoll, AllTurn, NodePollsSo, NodeTurnsSo};

use crate::left::left_at;
use crate::still::are_still;
use m2_bytes::NoMemory;
use m2_edge::{Clock, next_moment};
use m2_fabric::{End, Port};
use m2_journal::{Entry, EntryList};
use m2_node::{Record, RunCenter, RunEnd, RunNode, polls_go_on, turns_go_on, waiting_goes_on};
use m2_scenario::{Link, Node};
use std::alloc::Global;
use std::sync::Wait;
use std::sync::atomic::{AtomicBool, Ordering};

/// Where nodes were left: how many posts are left, and the moment.
#[derive(Clone, Copy, Debug)]
pub(crate) struct Settled {
    pub(crate) left: u64,
    pub(crate) stop: u64,
}

/// Rounds in which each node that is on takes a turn, until nothing is left, or all is still and nothing productive
/// happened for as long as the limit. `from` is the moment of the last turn, `start` that of the start; by `rests` the ports tell
/// whether anything waits there.
pub(crate) fn settle<R: Wait, P: Port, C: Clock>(
    rt: &R,
    alloc: Global,
    nodes: &[Node],
    links: &[Link],
    all: &mut [RunNode<'_, P>],
    rests: &[AtomicBool],
    limit: u64,
    clock: &C,
    start: u64,
    from: u64,
) -> Result<Settled, NoMemory>
    requires few { length nodes.now < 2 ^ 32 }
    requires given { C.may_give clock.now from }
    requires count { length all.old ≡ length nodes.now }
    ensures left { IfOk result (λ s. s.left ≡ left_of links.now all.new) }
    ensures over { IfOk result (λ s. (s.left ≡ 0) ⊎ HasStalled limit nodes.now all.new start s.stop) }
    ensures later { IfOk result (λ s. from ≤ s.stop) }
    ensures given { IfOk result (λ s. C.may_give clock.now s.stop) }
    ensures goes_on { IfOk result (λ s. AllGoOn (C.may_give clock.now) from s.stop nodes.now all.old all.new) }
{
    forget(rests);
    let mut now = from;
    'rounds: for _ in rt.forever() {
        if let Some(settled) = settled_at(nodes, links, all, rests, limit, start, now)? {
            return Ok(settled);
        }
        now = go_round(alloc, nodes, all, clock, now)?;
    }
    unreachable!()
}

/// What the ports told while the threads ran is forgotten: what lies in an inbox is known behind the first round.
fn forget(rests: &[AtomicBool]) {
    'ports: for rest in rests {
        rest.store(false, Ordering::SeqCst);
    }
}

#[tactic(auto, using(crate::proofs::Settled::none_left, crate::proofs::Settled::have_stalled))]
/// Where nodes are left at this moment, if nothing is left, or all is still and nothing productive happened for as long as
/// the limit.
fn settled_at<P: Port>(
    nodes: &[Node],
    links: &[Link],
    all: &[RunNode<'_, P>],
    rests: &[AtomicBool],
    limit: u64,
    start: u64,
    now: u64,
) -> Result<Option<Settled>, NoMemory>
    ensures { IfOk result (λ o. IfSome o (IsSettled limit nodes.now links.now all.now start now)) }
{
    let left = left_at(links, all)?;
    if left == 0 {
        return Ok(Some(Settled { left, stop: now }));
    }
    if all_rest(rests) && is_over(nodes, all, now, start, limit) {
        Ok(Some(Settled { left, stop: now }))
    } else {
        Ok(None)
    }
}

/// Whether each port has told that nothing waits there.
fn all_rest(rests: &[AtomicBool]) -> bool {
    rests.iter().all(|rest| rest.load(Ordering::SeqCst))
}

/// Each node that is on takes a turn, and then waits at its ports: the moment of these turns, not before the last one.
fn go_round<P: Port, C: Clock>(
    alloc: Global,
    nodes: &[Node],
    all: &mut [RunNode<'_, P>],
    clock: &C,
    earlier: u64,
) -> Result<u64, NoMemory>
    requires few { length nodes.now < 2 ^ 32 }
    requires given { C.may_give clock.now earlier }
    requires count { length all.old ≡ length nodes.now }
    ensures { IfOk result (λ now. HaveGoneOn (C.may_give clock.now) earlier now nodes.now all.old all.new) }
{
    turns_go_on::<RunEnd<P::End>, C>();
    polls_go_on::<C>();
    waiting_goes_on::<C>();
    let now = next_moment(clock, earlier);
    round(alloc, nodes, all, now)?;
    rest(nodes, all);
    Ok(now)
}

/// Whether nothing productive happened for as long as the limit, and all is still.
fn is_over<P: Port>(
    nodes: &[Node],
    all: &[RunNode<'_, P>],
    now: u64,
    start: u64,
    limit: u64,
) -> bool
    ensures { OnTrue result (HasStalled limit nodes.now all.now start now) }
{
    match last_in(all, start).checked_add(limit) {
        None => false,
        Some(end) => end <= now && are_still(nodes, all, now),
    }
}

/// The moment of the last productive entry of these nodes, or that of the start where it is later.
fn last_in<P: Port>(all: &[RunNode<'_, P>], start: u64) -> u64
    ensures { result ≡ last_in start all.now }
{
    let mut last = start;
    'nodes: for k in 0..all.len() {
        last = last_of(all[k].centers(), last);
    }
    last
}

/// The same of these centers.
fn last_of<P: Port>(centers: &[RunCenter<P>], earlier: u64) -> u64
    ensures { result ≡ last_of earlier centers.now }
{
    let mut last = earlier;
    'centers: for j in 0..centers.len() {
        last = last_at(centers[j].records(), last);
    }
    last
}

/// The same of these records.
fn last_at<E: End>(records: &[Record<E>], earlier: u64) -> u64
    ensures { result ≡ fold later_of earlier records.now }
{
    let mut last = earlier;
    'records: for k in 0..records.len() {
        last = later_of(last, &records[k]);
    }
    last
}

/// The same of one.
fn later_of<E: End>(earlier: u64, side: &Record<E>) -> u64
    ensures { result ≡ later_of earlier side.now }
{
    if is_any_productive(side.journal()) {
        earlier.max(side.last())
    } else {
        earlier
    }
}

/// Whether a journal has a productive entry.
fn is_any_productive(journal: &EntryList) -> bool
    ensures { result ≡ list_any is_productive journal.now.items }
{
    for entry in journal.iter() {
        if is_productive(&entry) {
            return true;
        }
    }
    false
}

/// Whether something was queued, read, written or accepted.
fn is_productive(entry: &Entry) -> bool
    ensures { result ≡ is_productive entry.now }
{
    match entry {
        Entry::Post { .. } | Entry::Read { .. } | Entry::Wrote { .. } | Entry::Accepted { .. } =>
            true,
        _ => false,
    }
}

#[tactic(auto, using(crate::proofs::Rounds::none_did, crate::proofs::Rounds::one_did, crate::proofs::Rounds::one_is_off, crate::proofs::Rounds::all_turned))]
/// Each node that is on takes a turn at this moment. Err is want of memory.
fn round<P: Port>(
    alloc: Global,
    nodes: &[Node],
    all: &mut [RunNode<'_, P>],
    now: u64,
) -> Result<(), NoMemory>
    requires few { length nodes.now < 2 ^ 32 }
    requires count { length all.old ≡ length nodes.now }
    ensures { OnOk result (AllTurn (RunEnd P.End) now nodes.now all.old all.new) }
{
    'nodes: for k in 0..nodes.len() {
        if nodes[k].started {
            turn_node(alloc, all, k, now)?;
        }
    }
    Ok(())
}

/// The node at this place does.
fn turn_node<P: Port>(
    alloc: Global,
    all: &mut [RunNode<'_, P>],
    k: usize,
    now: u64,
) -> Result<(), NoMemory>
    requires { k < length all.old }
    ensures { OnOk result (OneNodeDoes k (NodeTurnsSo (RunEnd P.End) now) all.old all.new) }
{
    all[k].turn(alloc, now)
}

/// The node at this place waits at its ports.
fn poll_node<P: Port>(all: &mut [RunNode<'_, P>], k: usize)
    requires { k < length all.old }
    ensures { OneNodeDoes k NodePollsSo all.old all.new }
{
    all[k].poll();
}

#[tactic(auto, using(crate::proofs::Rounds::none_did, crate::proofs::Rounds::one_did, crate::proofs::Rounds::one_is_off, crate::proofs::Rounds::all_polled))]
/// Each node that is on waits at its ports for a millisecond each.
fn rest<P: Port>(nodes: &[Node], all: &mut [RunNode<'_, P>])
    requires few { length nodes.now < 2 ^ 32 }
    requires count { length all.old ≡ length nodes.now }
    ensures { AllPoll nodes.now all.old all.new }
{
    'nodes: for k in 0..nodes.len() {
        if nodes[k].started {
            poll_node(all, k);
        }
    }
}
