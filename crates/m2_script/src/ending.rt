//! The end of nodes.

ghost use Rattle.std.specs.Prelude.{◌≡◌, IfOk, map};
ghost use Rattle.m2_script.specs.Ended.{both_in, both_of};

use m2_bytes::NoMemory;
use m2_cluster::{Cluster, Node};
use m2_dispatch::{LogDispatcher, Logged};
use m2_fabric::Port;
use std::alloc::Global;

/// What the two dispatchers of a node were called with: the one of fast kinds, and the one behind the queue.
#[derive(Drop)]
pub(crate) struct BothLogs {
    pub(crate) fast: Vec<Logged>,
    pub(crate) queued: Vec<Logged>,
}

/// Ends all nodes, and gives what the dispatchers of each were called with, in their order. On Err they are ended too.
pub(crate) fn end_all<P: Port>(
    alloc: Global,
    mut cluster: Cluster<P, LogDispatcher>,
) -> Result<Vec<BothLogs>, NoMemory>
    ensures { IfOk result (λ all. map both_in all.items ≡ map both_of cluster.nodes) }
{
    let mut all = Vec::new(alloc);
    if all.reserve(cluster.nodes().len()).is_err() {
        throw_away(cluster);
        return Err(NoMemory);
    }
    'nodes: while let Some(node) = cluster.pop() {
        all.push_reserved(end_node(node));
    }
    cluster.destroy_empty();
    all.reverse();
    Ok(all)
}

/// Ends all nodes.
fn throw_away<P: Port>(mut cluster: Cluster<P, LogDispatcher>) {
    'nodes: while let Some(node) = cluster.pop() {
        let _logs = end_node(node);
    }
    cluster.destroy_empty();
}

/// Ends a node, and gives what its dispatchers were called with.
fn end_node<P: Port>(node: Node<P, LogDispatcher>) -> BothLogs
    ensures { both_in result ≡ both_of node }
{
    let (center, shared) = node.into_parts();
    let cleared = center.finished().clear(shared);
    BothLogs {
        fast: cleared.fast.into_log().into_vec(),
        queued: cleared.queued.into_log().into_vec(),
    }
}
