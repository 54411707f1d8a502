//! All nodes before the first line.

ghost use Rattle.std.specs.Prelude.{◌≡◌, IfOk, length, map};
ghost use Rattle.m2_script.specs.Nodes.{AreNewNodes};
ghost use Rattle.m2_scenario.specs.Draft.{draft_line};
ghost use Rattle.m2_scenario.specs.Valid.{IsSound};

use crate::node::node_of;
use crate::ranges::keep_ranges;
use m2_bytes::NoMemory;
use m2_cluster::Cluster;
use m2_dispatch::LogDispatcher;
use m2_edge::{CountWords, Words};
use m2_fabric::{CutPort, SimPort};
use m2_scenario::{Line, Link, Node};
use std::alloc::Global;

/// All nodes in memory.
pub type MemoryCluster = Cluster<CutPort<SimPort>, LogDispatcher>;

/// The nodes of a valid scenario, in order, before its first line. Err is want of memory.
pub fn cluster_of(
    alloc: Global,
    nodes: &[Node],
    links: &[Link],
    lines: &[Line],
) -> Result<MemoryCluster, NoMemory>
    requires { IsSound nodes.now links.now (map draft_line lines.now) }
    ensures { IfOk result (λ c. AreNewNodes nodes.now links.now lines.now c.nodes) }
{
    let mut cluster = MemoryCluster::with_room(alloc, nodes.len())?;
    let mut words = CountWords::new();
    'nodes: for number in 0..nodes.len() {
        match node_of(alloc, nodes, links, lines, number as u32, words.next()) {
            Ok(node) => cluster.add(node),
            Err(NoMemory) => {
                clear_all(cluster);
                return Err(NoMemory);
            }
        }
    }
    keep_ranges(nodes);
    Ok(cluster)
}

/// Throws away all nodes of a cluster, with what they hold.
pub fn clear_all(mut cluster: MemoryCluster) {
    'nodes: while let Some(node) = cluster.pop() {
        let (center, shared) = node.into_parts();
        let _cleared = center.finished().clear(shared);
    }
    cluster.destroy_empty();
}
