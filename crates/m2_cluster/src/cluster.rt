//! All nodes.

ghost use Rattle.std.specs.Prelude.{◌≡◌, ◌++◌, ◌-◌, ◌<◌, ◌≤◌, [], ◌∷◌, length, slice_get, IfOk, IfNone, IfSome, MatchOption};
ghost use Rattle.std.specs.List.{AllByRecursion};
ghost use Rattle.m2_center.specs.Plans.{IsReadyFor};
ghost use Rattle.m2_cluster.specs.Cluster.{OneDoes};
ghost use Rattle.m2_center.specs.CenterTurn.{memory_in};
ghost use Rattle.m2_cluster.specs.Node.{IsWholeNode, NodePlans, NodeTurns, Polls};
ghost use Rattle.m2_center.specs.m2_record.IsRecord.{CanBePlanned};

use crate::node::Node;
use m2_bytes::NoMemory;
use m2_center::CenterTurn;
use m2_dispatch::Dispatcher;
use m2_fabric::{MemoryEnd, MemoryPort, Port};
use m2_journal::PlanStep;
use std::alloc::Global;
use std::marker::Model;

/// All nodes, from 0 in the order in which they were added. As a [`Holder`] it has the ports and ends of all of them.
///
/// Maker: [`with_room`](Cluster::with_room). Looks: [`nodes`](Cluster::nodes);
/// [`is_whole`](Cluster::is_whole) says what its nodes keep. Calls: [`add`](Cluster::add),
/// [`turn`](Cluster::turn), [`poll`](Cluster::poll), [`plan`](Cluster::plan), [`pop`](Cluster::pop). The end:
/// [`destroy_empty`](Cluster::destroy_empty). It can't be dropped, since nodes can't.
pub struct Cluster<P: Port, D> {
    pub(crate) nodes: Vec<Node<P, D>>,
}

impl<P: Port, D> Model for Cluster<P, D> {
    ghost use Rattle.std.specs.Prelude.{◌-◌, vec_capacity, vec_len};
    ghost use Rattle.m2_cluster.specs.Cluster.{ClusterNow};

    ghost Value = { ClusterNow D };

    ghost view = { λ c. record { nodes = c.nodes.items; room = vec_capacity c.nodes - vec_len c.nodes } };
}

impl<P: Port, D> Cluster<P, D> {
    /// No nodes, and room for so many.
    pub fn with_room(alloc: Global, nodes: usize) -> Result<Cluster<P, D>, NoMemory>
        ensures none { IfOk result (λ c. c.nodes ≡ []) }
        ensures room { IfOk result (λ c. nodes ≤ c.room) }
    {
        let mut all = Vec::new(alloc);
        match all.reserve(nodes) {
            Ok(()) => Ok(Cluster { nodes: all }),
            Err(_) => {
                all.destroy_empty();
                Err(NoMemory)
            }
        }
    }

    /// A node goes last, for which there is room.
    pub fn add(&mut self, node: Node<P, D>)
        requires { 0 < self.old.room }
        ensures nodes { self.new.nodes ≡ self.old.nodes ++ node ∷ [] }
        ensures room { self.new.room ≡ self.old.room - 1 }
    {
        self.nodes.push_reserved(node);
    }

    /// The step is the last of the plan of the node's first record towards that peer, and is taken. There is
    /// such a node and such a record, and each step of the record's plan was taken.
    pub fn plan(&mut self, node: u32, peer: u32, step: PlanStep, now: u64) -> Result<(), NoMemory>
        requires node { node < length self.old.nodes }
        requires ready { IfSome (slice_get self.old.nodes node) (λ n. IsReadyFor peer n.center.records) }
        requires step { CanBePlanned step }
        ensures { OneDoes node (NodePlans result peer step now) self.old self.new }
    {
        self.nodes[node as usize].plan(peer, step, now)
    }

    /// A node waits at its port at most so many milliseconds for something to do. There is such a node.
    pub fn poll(&mut self, node: u32, most: u32)
        requires { node < length self.old.nodes }
        ensures { OneDoes node Polls self.old self.new }
    {
        let _ = self.nodes[node as usize].poll(most);
    }

    /// The nodes, in order.
    pub fn nodes(&self) -> &[Node<P, D>]
        ensures { result.now ≡ self.now.nodes }
    {
        self.nodes.as_slice()
    }

    /// The last node goes; none exactly where there is none.
    pub fn pop(&mut self) -> Option<Node<P, D>>
        ensures last { MatchOption result (self.old.nodes ≡ []) (λ node. self.old.nodes ≡ self.new.nodes ++ node ∷ []) }
        ensures none { IfNone result (self.new ≡ self.old) }
    {
        self.nodes.pop()
    }

    /// Throws away a cluster that has no nodes.
    pub fn destroy_empty(self)
        requires { self.nodes ≡ [] }
    {
        let Cluster { nodes } = self;
        nodes.destroy_empty();
    }
}

impl<P: Port, D: Dispatcher> Cluster<P, D> {
    /// One turn of a node's center at this moment. There is such a node.
    pub fn turn(&mut self, node: u32, now: u64) -> CenterTurn
        requires { node < length self.old.nodes }
        ensures { OneDoes node (NodeTurns P.End D.heard now (memory_in result)) self.old self.new }
    {
        self.nodes[node as usize].turn(now)
    }
}

impl<P: MemoryPort, D> Cluster<P, D>
where
    P::End: MemoryEnd,
{
    /// What each node in memory keeps, for contracts alone.
    pub fn is_whole(&self)
        ensures { AllByRecursion IsWholeNode self.now.nodes }
    {
        Self::each_is_whole(self.nodes.as_slice());
    }

    /// The same of these nodes.
    fn each_is_whole(nodes: &[Node<P, D>])
        ensures { AllByRecursion IsWholeNode nodes.now }
    {
        'nodes: for node in nodes {
            node.is_whole();
        }
    }
}
