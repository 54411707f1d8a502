//! All nodes before their first turn, and the moment of the start.

ghost use Rattle.std.specs.Prelude.{◌≡◌, ◌<◌, IfErr, IfOk, length, map, slice_get};
ghost use Rattle.std.specs.List.{AllByRecursion};
ghost use Rattle.m2_node.specs.Begins.{AreDoorsOf};
ghost use Rattle.m2_node.specs.Handing.{HasHandedNothing};
ghost use Rattle.m2_run.specs.Listening.{IsListeningFault};
ghost use Rattle.m2_node.specs.Rooms.{homes_of};
ghost use Rattle.m2_node.specs.Sharing.{AreSharesOf};
ghost use Rattle.m2_node.specs.Way.{AreNodesOf, AreOut};
ghost use Rattle.m2_node.specs.Working.{AreWorkersOf, nodes_of_workers};
ghost use Rattle.m2_scenario.specs.Draft.{draft_line};
ghost use Rattle.m2_scenario.specs.Valid.{IsSound};

use crate::listening::listen_all;
use crate::outcome::RunFault;
use m2_bytes::NoMemory;
use m2_dispatch::LogDispatcher;
use m2_edge::{Clock, Words};
use m2_fabric::{End, Fabric, Port};
use m2_handover::{HomePort, Inboxes};
use m2_node::{
    Doors, FirstPasses, Shares, Worker, begin_listening, begin_logged, begin_of_peers,
    centers_begin_on_course, new_records_can_begin,
};
use m2_scenario::{LineList, Link, Node};
use std::alloc::Global;
use std::sync::Wait;

/// The workers of all threads, in order, and the moment of the start.
pub(crate) struct Begun<'s, P: Port> {
    pub(crate) workers: Vec<Worker<'s, P>>,
    pub(crate) start: u64,
}

/// The nodes of a valid scenario, each with its workers, in order, at the moment of the start. Each that is started listens, and
/// has its ports of the fabric. The messages are moved out of the lines into the records' plans. Err: a node couldn't listen, or
/// memory ran out.
pub(crate) fn begin<'a, 's, R, F, C, W, B>(
    rt: R,
    alloc: Global,
    nodes: &[Node],
    links: &[Link],
    lines: LineList,
    fabric: &mut F,
    clock: &C,
    words: &mut W,
    doors: Doors<'a, <F::Port as Port>::End, B>,
    shares: &'s [Shares],
    passes: Vec<FirstPasses>,
) -> Result<Begun<'s, HomePort<'a, F::Port, R, B>>, RunFault>
where
    R: Wait + Copy,
    F: Fabric,
    C: Clock,
    W: Words,
    B: Inboxes<<F::Port as Port>::End>,
    requires sound { IsSound nodes.now links.now (map draft_line lines.items) }
    requires doors { AreDoorsOf (slice_get B.inboxes) (homes_of nodes.now) doors }
    requires shares { AreSharesOf nodes.now shares.now passes.items }
    ensures nodes { IfOk result (λ b. AreNodesOf (C.may_give clock.now) b.start nodes.now links.now lines.items (nodes_of_workers nodes.now shares.now b.workers.items)) }
    ensures given { IfOk result (λ b. C.may_give clock.now b.start) }
    ensures workers { IfOk result (λ b. AreWorkersOf nodes.now shares.now b.start b.workers.items) }
    ensures none { IfOk result (λ b. AllByRecursion HasHandedNothing b.workers.items) }
    ensures out { IfOk result (λ _. AreOut nodes.now (F.seen fabric.old) (F.seen fabric.new)) }
    ensures faults { IfOk result (λ _. (F.seen fabric.new).faults ≡ (F.seen fabric.old).faults) }
    ensures err { IfErr result (λ fault. IsListeningFault fault nodes.now (F.seen fabric.old) (F.seen fabric.new)) }
{
    if let Err(fault) = listen_all(fabric, nodes) {
        return Err(fault);
    }
    let start = clock.now();
    new_records_can_begin();
    centers_begin_on_course::<LogDispatcher, C>();
    begin_logged::<LogDispatcher>();
    begin_of_peers::<LogDispatcher>();
    match begin_listening(
        rt, alloc, nodes, links, lines, fabric, words, doors, shares, passes, start,
    ) {
        Ok(workers) => Ok(Begun { workers, start }),
        Err(NoMemory) => Err(RunFault::NoMemory),
    }
}
