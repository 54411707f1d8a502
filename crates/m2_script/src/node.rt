//! A node before the first line.

ghost use Rattle.std.specs.Prelude.{◌≡◌, ◌+◌, ◌<◌, [], None, IfOk, IfSome, length, map, slice_get};
ghost use Rattle.m2_cluster.specs.m2_center.Making.{CanBegin, new_center};
ghost use Rattle.m2_cluster.specs.Node.{IsWholeNode};
ghost use Rattle.m2_fabric.specs.CutPort.{shown};
ghost use Rattle.m2_fabric.specs.Port.{fresh_port};
ghost use Rattle.m2_script.specs.Nodes.{IsNewNode, cuts_of, none_drawn, none_granted};
ghost use Rattle.m2_scenario.specs.Draft.{draft_line};
ghost use Rattle.m2_scenario.specs.Valid.{IsSound};
ghost use Rattle.m2_shared.specs.Gates.{alone, dispatch_alone};

use crate::cuts::cuts_of;
use crate::records;
use m2_bytes::NoMemory;
use m2_cluster::{Center, NodeShared, Passes, Unmade};
use m2_dispatch::LogDispatcher;
use m2_fabric::{CutEnd, CutPort, SimEnd, SimPort};
use m2_record::Record;
use m2_scenario::{Line, Link, Node};
use m2_shared::{Bounds, Numbers, Throttles};
use std::alloc::Global;

/// A node in memory, whose sockets may break, and whose dispatchers log.
pub type MemoryNode = m2_cluster::Node<CutPort<SimPort>, LogDispatcher>;

/// The node of this number, which is its place among the scenario's. `word` is the one that is drawn for it. Err is want
/// of memory.
pub(crate) fn node_of(
    alloc: Global,
    nodes: &[Node],
    links: &[Link],
    lines: &[Line],
    number: u32,
    word: u64,
) -> Result<MemoryNode, NoMemory>
    requires sound { IsSound nodes.now links.now (map draft_line lines.now) }
    requires number { number < length nodes.now }
    requires word { word ≡ number + 1 }
    ensures { IfOk result (λ n. IfSome (slice_get nodes.now number) (λ x. IsNewNode nodes.now links.now lines.now number x n)) }
{
    let port = port_of(alloc, nodes, lines, number)?;
    let records = records(alloc, nodes, links, number, word)?;
    node_with(alloc, &nodes[number as usize], port, records)
}

/// The port of the node of this number, before its first call, with the cuts of the sockets that it will open. Err is want
/// of memory.
fn port_of(
    alloc: Global,
    nodes: &[Node],
    lines: &[Line],
    number: u32,
) -> Result<CutPort<SimPort>, NoMemory>
    requires { number < length nodes.now }
    ensures { IfOk result (λ p. IfSome (slice_get nodes.now number) (λ x. p ≡ record { inner = fresh_port x.at; cuts = cuts_of nodes.now lines.now number })) }
{
    let cuts = cuts_of(alloc, nodes, lines, number)?;
    let port = SimPort::new(alloc, nodes[number as usize].at);
    Ok(CutPort::new(port, cuts))
}

/// A node with this port and these records, of which nothing was granted or drawn. Err is want of memory.
fn node_with(
    alloc: Global,
    node: &Node,
    port: CutPort<SimPort>,
    records: Vec<Record<CutEnd<SimEnd>>>,
) -> Result<MemoryNode, NoMemory>
    requires port { port.inner ≡ fresh_port node.now.at }
    requires begin { CanBegin node.now.entity (shown port) records.items none_granted none_drawn }
    ensures center { IfOk result (λ n. n.center ≡ new_center node.now.entity (shown port) records.items [] [] none_granted none_drawn) }
    ensures numbers { IfOk result (λ n. n.numbers ≡ record { place = None }) }
    ensures throttles { IfOk result (λ n. n.throttles ≡ alone (dispatch_alone node.now.throttle)) }
    ensures whole { IfOk result IsWholeNode }
{
    let (numbers, number_pass) = Numbers::alone();
    let (throttles, passes) = Throttles::alone(&Bounds::of_dispatch(node.throttle));
    let shared = NodeShared { numbers, throttles };
    let of = Unmade {
        entity: node.entity,
        port,
        records,
        fast: LogDispatcher::new(alloc),
        queued: LogDispatcher::new(alloc),
        passes: Passes {
            numbers: number_pass,
            throttles: passes,
        },
    };
    match Center::new(alloc, of) {
        Ok(center) => {
            let made = MemoryNode::new(center, shared);
            made.is_whole();
            Ok(made)
        }
        Err(unmade) => {
            let _cleared = unmade.clear(shared);
            Err(NoMemory)
        }
    }
}
