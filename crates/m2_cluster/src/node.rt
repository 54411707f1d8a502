//! A node: its center, and what its threads share.

ghost use Rattle.std.specs.Prelude.{◌≡◌, OnErr, OnOk};
ghost use Rattle.std.specs.Option.{option_map};
ghost use Rattle.m2_center.specs.CenterTurn.{memory_in};
ghost use Rattle.m2_center.specs.Reaching.{ends_in};
ghost use Rattle.m2_center.specs.Plans.{IsReadyFor};
ghost use Rattle.m2_cluster.specs.Node.{ComesIn, HearsIn, IsWholeNode, NodePlans, NodeTurns, Polls, rest_of_node};
ghost use Rattle.m2_fabric.specs.End.{SeenEnd, after_news};
ghost use Rattle.m2_edge.specs.Faults.{HasCause};
ghost use Rattle.m2_fabric.specs.Log.{log_of};
ghost use Rattle.m2_center.specs.m2_record.IsRecord.{CanBePlanned};
ghost use Rattle.m2_center.specs.m2_record.Sources.{end_at};
ghost use Rattle.m2_dispatch.specs.m2_shared.Gates.{pass_places, places};

use m2_bytes::NoMemory;
use m2_center::{Center, CenterTurn, NodeShared};
use m2_dispatch::Dispatcher;
use m2_edge::Failed;
use m2_fabric::{EndLog, MemoryEnd, MemoryPort, News, Port, SocketId, SocketIdList};
use m2_journal::PlanStep;
use std::marker::Model;

/// A node with one center, and its counter of global numbers and its throttles.
///
/// Maker: [`new`](Node::new). Looks: [`center`](Node::center), [`shared`](Node::shared); what one in memory keeps says
/// [`is_whole`](Node::is_whole). Calls: [`turn`](Node::turn), and [`poll`](Node::poll) to wait for the next one. The end:
/// [`into_parts`](Node::into_parts). It can't be dropped, since a center can't.
pub struct Node<P: Port, D> {
    center: Center<P, D>,
    shared: NodeShared,
}

impl<P: Port, D> Model for Node<P, D> {
    ghost use Rattle.m2_cluster.specs.Node.{IsNode, NodeNow};

    ghost Value = { NodeNow D };

    ghost view = { λ n. record { center = n.center; numbers = n.shared.numbers; throttles = n.shared.throttles } };

    ghost invariant = { λ n. IsNode (record { center = n.center; numbers = n.shared.numbers; throttles = n.shared.throttles }) };
}

impl<P: Port, D> Node<P, D> {
    /// A node of a center whose passes are to what its threads share.
    pub fn new(center: Center<P, D>, shared: NodeShared) -> Node<P, D>
        requires numbers { center.numbers.place ≡ shared.numbers.place }
        requires throttles { pass_places center.bytes ≡ places shared.throttles }
        ensures { result ≡ record { center = center; numbers = shared.numbers; throttles = shared.throttles } }
    {
        Node { center, shared }
    }

    /// Its center.
    pub fn center(&self) -> &Center<P, D>
        ensures { result.now ≡ self.now.center }
    {
        &self.center
    }

    /// What its threads share.
    pub fn shared(&self) -> &NodeShared
        ensures numbers { result.now.numbers ≡ self.now.numbers }
        ensures throttles { result.now.throttles ≡ self.now.throttles }
    {
        &self.shared
    }

    /// Its center and what its threads share; the passes of the one are to the other.
    pub fn into_parts(self) -> (Center<P, D>, NodeShared)
        ensures center { result.0 ≡ self.center }
        ensures shared_numbers { result.1.numbers ≡ self.numbers }
        ensures shared_throttles { result.1.throttles ≡ self.throttles }
        ensures numbers { self.center.numbers.place ≡ self.numbers.place }
        ensures throttles { pass_places self.center.bytes ≡ places self.throttles }
    {
        let Node { center, shared } = self;
        (center, shared)
    }

    /// Waits at its port at most so many milliseconds for something to do, or not at all. Failed comes only where the
    /// port's count of faults rose.
    pub fn poll(&mut self, most: u32) -> Result<(), Failed>
        ensures causes { HasCause result self.old.center.port.faults self.new.center.port.faults }
        ensures stays { Polls self.old self.new }
    {
        self.center.poll(most)
    }

    /// The step is the last of the plan of its center's first record towards that peer, and is taken.
    pub(crate) fn plan(&mut self, peer: u32, step: PlanStep, now: u64) -> Result<(), NoMemory>
        requires ready { IsReadyFor peer self.old.center.records }
        requires step { CanBePlanned step }
        ensures { NodePlans result peer step now self.old self.new }
    {
        self.center.plan(&self.shared, peer, step, now)
    }

    /// The sockets that its port made, in order.
    pub(crate) fn made(&self) -> &SocketIdList
        ensures { result.now.items ≡ self.now.center.port.made }
    {
        self.center.made()
    }

    /// What its end of that socket did; none exactly where it has none, also where the socket still waits.
    pub(crate) fn log(&self, id: &SocketId) -> Option<&EndLog>
        ensures { option_map (λ log. log_of log.now) result ≡ option_map (λ (e : SeenEnd). e.log) (end_at (ends_in self.now.center) id.now) }
    {
        self.center.log(id)
    }

    /// Tells its end of that socket of the other side, also one that still waits.
    pub(crate) fn hear(&mut self, id: &SocketId, bytes: &[u8], news: News) -> Result<(), NoMemory>
        ensures ok { OnOk result (HearsIn id.now (after_news news bytes.now) self.old.center self.new.center) }
        ensures err { OnErr result (self.new ≡ self.old) }
        ensures rest { rest_of_node self.new ≡ rest_of_node self.old }
    {
        self.center.hear(id, bytes, news)
    }
}

impl<P: Port, D: Dispatcher> Node<P, D> {
    /// One turn of its center at this moment.
    pub fn turn(&mut self, now: u64) -> CenterTurn
        ensures { NodeTurns P.End D.heard now (memory_in result) self.old self.new }
    {
        self.center.turn(&self.shared, now)
    }
}

impl<P: MemoryPort, D> Node<P, D>
where
    P::End: MemoryEnd,
{
    /// A socket waits for its accept from now on, where it may.
    pub(crate) fn incoming(&mut self, id: SocketId) -> Result<(), NoMemory>
        ensures ok { OnOk result (ComesIn id self.old.center self.new.center) }
        ensures err { OnErr result (self.new ≡ self.old) }
        ensures rest { rest_of_node self.new ≡ rest_of_node self.old }
    {
        self.center.is_in_memory();
        self.center.incoming(id)
    }

    /// What a node in memory keeps, for contracts alone.
    pub fn is_whole(&self)
        ensures { IsWholeNode self.now }
    {
        self.center.is_center();
        self.center.comes_from_home();
        self.center.is_in_memory();
    }
}
