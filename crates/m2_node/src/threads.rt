//! All threads of a run at once.

ghost use Rattle.std.specs.Prelude.{◌≡◌, IfOk, IfSome, drop, map, reverse, slice_get, take};
ghost use Rattle.m2_node.specs.Lists.{SideBySide};
ghost use Rattle.std.specs.Fork.{AcceptsEach, ChangesEach};
ghost use Rattle.std.specs.List.{AllByRecursion};
ghost use Rattle.m2_links_go_on.specs.ClusterTold.{OneByOne};
ghost use Rattle.m2_dispatch.specs.Parcel.{AllOwned};
ghost use Rattle.m2_dispatch.specs.m2_shared.Gates.{places};
ghost use Rattle.m2_node.specs.Nodes.{IsServedBy};
ghost use Rattle.m2_node.specs.Dispatching.{IsServing, RunsServing, Serves};
ghost use Rattle.m2_node.specs.Handing.{IsDispatched, IsSending, RunsSender};
ghost use Rattle.m2_node.specs.Posts.{AreDispatched};
ghost use Rattle.m2_node.specs.Working.{AreGrouped, IsGroup, center_of, latest, node_of, nodes_of_workers};
ghost use Rattle.m2_node.specs.declared.end.RunEnd.{RunEnd};

use crate::dispatcher::{NodeDispatcher, give_back};
use crate::mails::Mail;
use crate::node::{
    RunCenter, RunNode, Shares, clear_center, clear_centers, clear_nodes, room_for_centers,
    room_for_nodes,
};
use crate::posts::{Closed, Posts, throw_away_dispatchers};
use crate::sending::Sender;
use crate::serving::Serving;
use crate::worker::{Signs, Worker};
use m2_bytes::NoMemory;
use m2_dispatch::Parcel;
use m2_edge::{Clock, Gate};
use m2_fabric::Port;
use m2_scenario::Node;
use std::alloc::Global;
use std::collections::VecDeque;
use std::sync::Wait;
use std::thread;
use std::thread::Threads;

/// Runs all threads at once, until the signs say stop: one of a node that is on did its work exactly as often as it was told to go on, and
/// was told to stop at the end.
pub(crate) fn work_all<R, P, C, G>(
    rt: &R,
    posts: &mut Posts<'_, P>,
    signs: &Signs,
    clock: &C,
    gate: &G,
)
where
    R: Threads + Wait + Sync,
    P: Port + Send,
    P::End: Send,
    C: Clock,
    G: Gate,
    requires senders { SideBySide IsSending posts.old.mails.items posts.old.senders.items }
    requires servers { AllByRecursion (IsServing posts.old.mails.items) posts.old.servers.items }
    ensures senders_run { OneByOne (RunsSender (RunEnd P.End) (C.may_give clock.now)) posts.old.senders.items posts.new.senders.items }
    ensures servers_run { OneByOne (RunsServing posts.old.mails.items) posts.old.servers.items posts.new.servers.items }
    ensures mails { posts.new.mails.items ≡ posts.old.mails.items }
    ensures senders { SideBySide IsSending posts.new.mails.items posts.new.senders.items }
    ensures servers { AllByRecursion (IsServing posts.new.mails.items) posts.new.servers.items }
    ensures serves { OneByOne Serves posts.old.servers.items posts.new.servers.items }
{
    work_both(
        rt,
        posts.mails.as_slice(),
        signs,
        clock,
        gate,
        posts.senders.as_mut_slice(),
        posts.servers.as_mut_slice(),
    );
}

/// The event threads and the dispatchers' at once.
fn work_both<R, P, C, G>(
    rt: &R,
    mails: &[Mail],
    signs: &Signs,
    clock: &C,
    gate: &G,
    senders: &mut [Sender<'_, P>],
    servers: &mut [Serving<'_>],
)
where
    R: Threads + Wait + Sync,
    P: Port + Send,
    P::End: Send,
    C: Clock,
    G: Gate,
    requires senders { SideBySide IsSending mails.now senders.old }
    requires servers { AllByRecursion (IsServing mails.now) servers.old }
    ensures senders_run { OneByOne (RunsSender (RunEnd P.End) (C.may_give clock.now)) senders.old senders.new }
    ensures servers_run { OneByOne (RunsServing mails.now) servers.old servers.new }
    ensures senders { SideBySide IsSending mails.now senders.new }
    ensures servers { AllByRecursion (IsServing mails.now) servers.new }
    ensures serves { OneByOne Serves servers.old servers.new }
{
    each_beside(
        rt,
        senders,
        &|i, s: &mut Sender<'_, P>|
            requires { IfSome (slice_get mails.now i) (λ m. IsSending m s.now) }
            ensures runs { IfSome (slice_get mails.entry.now i) (λ _. RunsSender (RunEnd P.End) (C.may_give clock.entry.now) s.entry.now s.exit.now) }
            ensures sends { IfSome (slice_get mails.entry.now i) (λ m. IsSending m s.exit.now) }
        { s.work_by(rt, mails, i, signs, clock, gate) },
        &mut ||
            requires { AllByRecursion (IsServing mails.now) servers.now }
            ensures servers { AllByRecursion (IsServing mails.entry.now) servers.exit.now }
            ensures serves { OneByOne Serves servers.entry.now servers.exit.now }
            ensures runs { OneByOne (RunsServing mails.entry.now) servers.entry.now servers.exit.now }
        { serve_each(rt, mails, signs, clock, servers) },
    );
}

/// Calls f at each of these, and g beside.
fn each_beside<R, T, F, G>(rt: &R, items: &mut [T], f: &F, g: &mut G)
where
    R: Threads + Sync,
    T: Send,
    F: Fn(usize, &mut T) + Sync,
    G: FnMut() + Send,
    requires accepts { AcceptsEach F.Fn f.now items.old }
    requires beside { G.pre g.old }
    ensures each { ChangesEach F.Fn f.now items.old items.new }
    ensures beside { G.step g.old tt g.new }
{
    thread::join_mut(
        rt,
        g,
        &mut ||
            requires { AcceptsEach F.Fn f.now items.now }
            ensures { ChangesEach F.Fn f.entry.now items.entry.now items.exit.now }
        { each(rt, f, items) },
    );
}

/// Calls f at each of these, in a thread for each.
fn each<R, T, F>(rt: &R, f: &F, items: &mut [T])
where
    R: Threads + Sync,
    T: Send,
    F: Fn(usize, &mut T) + Sync,
    requires { AcceptsEach F.Fn f.now items.old }
    ensures { ChangesEach F.Fn f.now items.old items.new }
{
    let count = items.len();
    if count == 0 {
        return;
    }
    thread::for_each_mut(rt, items, count, f);
}

/// Runs those of the dispatchers.
fn serve_each<R, C>(rt: &R, mails: &[Mail], signs: &Signs, clock: &C, servers: &mut [Serving<'_>])
where
    R: Threads + Wait + Sync,
    C: Clock,
    requires { AllByRecursion (IsServing mails.now) servers.old }
    ensures servers { AllByRecursion (IsServing mails.now) servers.new }
    ensures serves { OneByOne Serves servers.old servers.new }
    ensures runs { OneByOne (RunsServing mails.now) servers.old servers.new }
{
    let count = servers.len();
    if count == 0 {
        return;
    }
    thread::for_each_mut(
        rt,
        servers,
        count,
        &|_, s: &mut Serving<'_>|
            requires { IsServing mails.now s.now }
            ensures served { IsServing mails.entry.now s.exit.now }
            ensures serves { Serves s.entry.now s.exit.now }
            ensures runs { RunsServing mails.entry.now s.entry.now s.exit.now }
        { s.serve(rt, mails, signs, clock) },
    );
}

/// All nodes of a run, and the latest moment of their threads.
pub struct Joined<'s, P: Port> {
    pub all: Vec<RunNode<'s, P>>,
    pub now: u64,
}

/// The nodes of workers whose threads have ended, in order, and the latest moment of theirs.
pub fn join_all<'s, P: Port>(
    alloc: Global,
    nodes: &[Node],
    shares: &'s [Shares],
    closed: Closed<'s, P>,
    start: u64,
) -> Result<Joined<'s, P>, NoMemory>
    requires groups { AreGrouped nodes.now shares.now closed.workers.items }
    requires dispatched { AreDispatched nodes.now shares.now closed.workers.items closed.dispatchers.items }
    ensures nodes { IfOk result (λ r. r.all.items ≡ nodes_of_workers nodes.now shares.now closed.entry.workers.items) }
    ensures moment { IfOk result (λ r. r.now ≡ latest start closed.entry.workers.items) }
{
    let Closed {
        mut workers,
        mut dispatchers,
    } = closed;
    let now = latest_of(workers.as_slice(), start);
    workers.reverse();
    dispatchers.reverse();
    let joined = join_nodes(alloc, nodes, shares, &mut workers, &mut dispatchers);
    throw_away(workers);
    throw_away_dispatchers(dispatchers);
    Ok(Joined { all: joined?, now })
}

/// The nodes of these workers, the last of which is the first thread of the first node.
fn join_nodes<'s, P: Port>(
    alloc: Global,
    nodes: &[Node],
    shares: &'s [Shares],
    workers: &mut Vec<Worker<'s, P>>,
    dispatchers: &mut Vec<NodeDispatcher<'s>>,
) -> Result<Vec<RunNode<'s, P>>, NoMemory>
    requires groups { AreGrouped nodes.now shares.now (reverse workers.old.items) }
    requires dispatched { AreDispatched nodes.now shares.now (reverse workers.old.items) (reverse dispatchers.old.items) }
    ensures { IfOk result (λ all. all.items ≡ nodes_of_workers nodes.now shares.now (reverse workers.old.items)) }
{
    let mut all = room_for_nodes(alloc, nodes.len())?;
    'nodes: for k in 0..nodes.len() {
        let Some(dispatcher) = dispatchers.pop() else {
            clear_nodes(all);
            return Err(NoMemory);
        };
        match join_node(alloc, &nodes[k], &shares[k], workers, dispatcher) {
            Ok(node) => all.push_reserved(node),
            Err(NoMemory) => {
                clear_nodes(all);
                return Err(NoMemory);
            }
        }
    }
    Ok(all)
}

/// One node, of as many of the last workers as it has centers, the last one first.
fn join_node<'s, P: Port>(
    alloc: Global,
    node: &Node,
    shares: &'s Shares,
    workers: &mut Vec<Worker<'s, P>>,
    dispatcher: NodeDispatcher<'s>,
) -> Result<RunNode<'s, P>, NoMemory>
    requires group { IsGroup node.now shares.now (take node.now.centers (reverse workers.old.items)) }
    requires dispatched { IsDispatched shares.now.throttles (map center_of (take node.now.centers (reverse workers.old.items))) dispatcher }
    ensures node { IfOk result (λ n. n ≡ node_of shares.now (take node.now.centers (reverse workers.old.items))) }
    ensures left { IfOk result (λ _. reverse workers.new.items ≡ drop node.now.centers (reverse workers.old.items)) }
{
    match join_centers(alloc, node, shares, workers) {
        Ok(centers) => Ok(RunNode::new(centers, &shares.shared, dispatcher)),
        Err(NoMemory) => {
            let _log = dispatcher.into_log();
            Err(NoMemory)
        }
    }
}

/// Its centers.
fn join_centers<'s, P: Port>(
    alloc: Global,
    node: &Node,
    shares: &'s Shares,
    workers: &mut Vec<Worker<'s, P>>,
) -> Result<Vec<RunCenter<P>>, NoMemory>
    requires { IsGroup node.now shares.now (take node.now.centers (reverse workers.old.items)) }
    ensures centers { IfOk result (λ centers. centers.items ≡ map center_of (take node.now.centers (reverse workers.old.items))) }
    ensures served { IfOk result (λ centers. AllByRecursion (IsServedBy shares.now.numbers shares.now.throttles) centers.items) }
    ensures left { IfOk result (λ _. reverse workers.new.items ≡ drop node.now.centers (reverse workers.old.items)) }
{
    let mut centers = room_for_centers(alloc, node.centers as usize)?;
    'centers: for _ in 0..node.centers {
        let Some(worker) = workers.pop() else {
            clear_centers(centers, &shares.shared);
            return Err(NoMemory);
        };
        centers.push_reserved(worker.into_parts().0);
    }
    Ok(centers)
}

/// The latest moment of these workers, or this one where it is later.
fn latest_of<P: Port>(workers: &[Worker<'_, P>], start: u64) -> u64
    ensures { result ≡ latest start workers.now }
{
    let mut now = start;
    'workers: for k in 0..workers.len() {
        now = now.max(workers[k].moment());
    }
    now
}

/// Throws away all workers, with what their centers hold.
pub(crate) fn throw_away<P: Port>(mut workers: Vec<Worker<'_, P>>) {
    'workers: while let Some(worker) = workers.pop() {
        let (center, shares) = worker.into_parts();
        let _passes = clear_center(center, &shares.shared);
    }
    workers.destroy_empty();
}

/// One, with what it has handed on and nobody took.
pub(crate) fn throw_away_worker<P: Port>(worker: Worker<'_, P>, mut waiting: VecDeque<Parcel>)
    requires { AllOwned (places worker.throttles) waiting.items }
{
    let (center, shares) = worker.into_parts();
    let mut passes = clear_center(center, &shares.shared);
    'parcels: while let Some(parcel) = waiting.pop_front() {
        give_back(parcel, &shares.shared.throttles, &mut passes);
    }
    waiting.destroy_empty();
}
