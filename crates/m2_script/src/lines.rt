//! A scenario's lines, one after another.

ghost use Rattle.std.specs.Prelude.{◌≡◌, ◌<◌, ◌++◌, [], length, flat_map, slice_get, IfSome, Ok};
ghost use Rattle.std.specs.Option.{is_some};
ghost use Rattle.m2_dispatch.specs.Heard.{heard_by};
ghost use Rattle.m2_script.specs.Script.{CanAllBeDone, CanBeDone, Ends, Happens, MOST, RunNow, both_flow, fast_calls, noted, queued_calls, deeds_of, fault, flow, meet, plan, rounds_of, round_of, script_of, turn, turn_and_meet, turns_from};

use crate::calls::{TurnCalls, TurnCallsList};
use m2_bytes::NoMemory;
use m2_cluster::Cluster;
use m2_dispatch::LogDispatcher;
use m2_fabric::{MemoryEnd, MemoryPort, Port, SimFabric};
use m2_journal::PlanStep;
use m2_scenario::{Line, LineList, Link};
use std::alloc::Global;
use std::marker::Model;

/// The nodes of a cluster in memory with the sockets between them, the moment of the next deed, in milliseconds, and
/// how many calls the nodes' dispatchers had in the turns so far.
///
/// Maker: [`new`](Run::new). Looks: [`cluster`](Run::cluster), [`now`](Run::now). Calls: [`line`](Run::line),
/// [`lines`](Run::lines). After want of memory the run ends. The end: [`into_parts`](Run::into_parts). It can't be
/// dropped, since nodes can't.
pub struct Run<P: Port> {
    cluster: Cluster<P, LogDispatcher>,
    fabric: SimFabric,
    now: u64,
    calls: TurnCallsList,
}

impl<P: Port> Model for Run<P> {
    ghost use Rattle.std.specs.Prelude.{List};
    ghost use Rattle.m2_dispatch.specs.declared.logged.Logged.{Logged};
    ghost use Rattle.m2_script.specs.Script.{RunNow};

    ghost Value = { RunNow (List Logged) };

    ghost view = { λ r. record { cluster = r.cluster; fabric = r.fabric; now = r.now; calls = r.calls.items } };
}

impl<P: Port> Run<P> {
    /// Before the first line, at moment 0.
    pub fn new(alloc: Global, cluster: Cluster<P, LogDispatcher>, fabric: SimFabric) -> Run<P>
        ensures { result ≡ record { cluster = cluster; fabric = fabric; now = 0; calls = [] } }
    {
        Run {
            cluster,
            fabric,
            now: 0,
            calls: TurnCallsList::empty(alloc),
        }
    }

    /// The nodes where the lines so far have led them.
    pub fn cluster(&self) -> &Cluster<P, LogDispatcher>
        ensures { result.now ≡ self.entry.now.cluster }
    {
        &self.cluster
    }

    /// The moment of the next deed, in milliseconds.
    pub fn now(&self) -> u64
        ensures { result ≡ self.entry.now.now }
    {
        self.now
    }

    /// The nodes, and how many calls their dispatchers had in each turn, in the order of the turns, without turns in
    /// which they had none.
    pub fn into_parts(self) -> (Cluster<P, LogDispatcher>, TurnCallsList)
        ensures cluster { result.0 ≡ self.cluster }
        ensures calls { result.1.items ≡ self.calls }
    {
        let Run {
            cluster,
            fabric: _,
            now: _,
            calls,
        } = self;
        (cluster, calls)
    }
}

impl<P: MemoryPort> Run<P>
where
    P::End: MemoryEnd,
{
    /// Does what all lines say, in order. Err is want of memory.
    pub fn lines(&mut self, links: &[Link], nodes: u32, lines: LineList) -> Result<(), NoMemory>
        requires { CanAllBeDone P.End heard_by (script_of links.now nodes lines.items) self.old }
        ensures { Ends P.End heard_by result (script_of links.now nodes lines.items) self.old self.new }
    {
        for line in lines.into_vec() {
            self.line(links, nodes, line)?;
        }
        Ok(())
    }

    /// Does what a line says. Err is want of memory.
    pub fn line(&mut self, links: &[Link], nodes: u32, line: Line) -> Result<(), NoMemory>
        requires { CanAllBeDone P.End heard_by (deeds_of links.now nodes line) self.old }
        ensures { Ends P.End heard_by result (deeds_of links.now nodes line) self.old self.new }
    {
        match line {
            Line::Post { a, b, message } => self.plan(a, b, PlanStep::Post(message)),
            Line::Dial { a, b } => self.plan(a, b, PlanStep::Dial),
            Line::Down { a, b } => {
                self.plan(a, b, PlanStep::Down)?;
                self.meet(a)
            }
            Line::Cut {
                a: _,
                b: _,
                bytes: _,
            } => Ok(()),
            Line::Turn { a } => self.turn_and_meet(a),
            Line::Flow { a, b, socket, most } => self.flow(a, b, socket, most),
            Line::Fault { a, b, socket } => self.fault(a, b, socket),
            Line::Settle { rounds } => self.settle(links, nodes, rounds),
        }
    }

    /// So many rounds.
    fn settle(&mut self, links: &[Link], nodes: u32, rounds: u32) -> Result<(), NoMemory>
        requires { CanAllBeDone P.End heard_by (rounds_of links.now nodes rounds) self.old }
        ensures { Ends P.End heard_by result (rounds_of links.now nodes rounds) self.old self.new }
    {
        'rounds: for _ in 0..rounds {
            self.round(links, nodes)?;
        }
        Ok(())
    }

    /// Everything flows, and then each node takes a turn.
    fn round(&mut self, links: &[Link], nodes: u32) -> Result<(), NoMemory>
        requires { CanAllBeDone P.End heard_by (round_of links.now nodes) self.old }
        ensures { Ends P.End heard_by result (round_of links.now nodes) self.old self.new }
    {
        self.flow_all(links)?;
        self.turn_all(nodes)
    }

    /// Everything flows on every socket, over the links in their order.
    fn flow_all(&mut self, links: &[Link]) -> Result<(), NoMemory>
        requires { CanAllBeDone P.End heard_by (flat_map both_flow links.now) self.old }
        ensures { Ends P.End heard_by result (flat_map both_flow links.now) self.old self.new }
    {
        for link in links {
            self.flow_both(link)?;
        }
        Ok(())
    }

    /// Everything flows over a link, in both directions.
    fn flow_both(&mut self, link: &Link) -> Result<(), NoMemory>
        requires { CanAllBeDone P.End heard_by (both_flow link.now) self.old }
        ensures { Ends P.End heard_by result (both_flow link.now) self.old self.new }
    {
        self.flow(link.a, link.b, 0, u64::MAX)?;
        self.flow(link.b, link.a, 0, u64::MAX)
    }

    /// Each node takes a turn, in order.
    fn turn_all(&mut self, nodes: u32) -> Result<(), NoMemory>
        requires { CanAllBeDone P.End heard_by (turns_from 0 nodes) self.old }
        ensures { Ends P.End heard_by result (turns_from 0 nodes) self.old self.new }
    {
        for node in 0..nodes {
            self.turn_and_meet(node)?;
        }
        Ok(())
    }

    /// One turn of a node, behind which the others learn what it did.
    fn turn_and_meet(&mut self, node: u32) -> Result<(), NoMemory>
        requires { CanAllBeDone P.End heard_by (turn_and_meet node) self.old }
        ensures { Ends P.End heard_by result (turn_and_meet node) self.old self.new }
    {
        self.turn(node)?;
        self.meet(node)
    }

    fn plan(&mut self, a: u32, b: u32, step: PlanStep) -> Result<(), NoMemory>
        requires { CanBeDone (plan a b step) self.old }
        ensures { Happens P.End heard_by result (plan a b step) self.old self.new }
    {
        self.cluster.plan(a, b, step, self.now)?;
        self.cluster.is_whole();
        Ok(())
    }

    /// One turn of a node at this moment.
    fn turn(&mut self, node: u32) -> Result<(), NoMemory>
        requires { CanBeDone (turn node) self.old }
        ensures { Happens P.End heard_by result (turn node) self.old self.new }
    {
        self.calls.reserve(1)?;
        let (fast, queued) = counts(&self.cluster, node);
        self.cluster.turn(node, self.now).memory()?;
        if is_holding(&self.cluster, node) {
            return Err(NoMemory);
        }
        self.now = self.now.saturating_add(1);
        let (fast_now, queued_now) = counts(&self.cluster, node);
        note(
            &mut self.calls,
            TurnCalls {
                node,
                fast: fast_now.saturating_sub(fast),
                queued: queued_now.saturating_sub(queued),
            },
        );
        self.cluster.is_whole();
        Ok(())
    }

    /// The others learn what the node did.
    fn meet(&mut self, node: u32) -> Result<(), NoMemory>
        requires { CanBeDone (meet node) self.old }
        ensures { Happens P.End heard_by result (meet node) self.old self.new }
    {
        self.fabric.meet(&mut self.cluster, node)?;
        self.cluster.is_whole();
        Ok(())
    }

    fn flow(&mut self, a: u32, b: u32, socket: u32, most: u64) -> Result<(), NoMemory>
        requires { CanBeDone (flow a b socket most) self.old }
        ensures { Happens P.End heard_by result (flow a b socket most) self.old self.new }
    {
        self.fabric.flow(&mut self.cluster, a, b, socket, most)?;
        self.cluster.is_whole();
        Ok(())
    }

    fn fault(&mut self, a: u32, b: u32, socket: u32) -> Result<(), NoMemory>
        requires { CanBeDone (fault a b socket) self.old }
        ensures { Happens P.End heard_by result (fault a b socket) self.old self.new }
    {
        self.fabric.fault(&mut self.cluster, a, b, socket)?;
        self.cluster.is_whole();
        Ok(())
    }
}

/// Whether the node holds a letter for which its dispatcher had no memory.
fn is_holding<P: Port>(cluster: &Cluster<P, LogDispatcher>, node: u32) -> bool
    requires { node < length cluster.now.nodes }
    ensures { IfSome (slice_get cluster.now.nodes node) (λ n. result ≡ is_some n.center.out.held) }
{
    cluster.nodes()[node as usize].center().is_holding()
}

/// How many calls each dispatcher of the node had so far: that of fast kinds, and the one behind its queue.
fn counts<P: Port>(cluster: &Cluster<P, LogDispatcher>, node: u32) -> (usize, usize)
    requires { node < length cluster.now.nodes }
    ensures fast { IfSome (slice_get cluster.now.nodes node) (λ n. result.0 ≡ fast_calls heard_by n) }
    ensures queued { IfSome (slice_get cluster.now.nodes node) (λ n. result.1 ≡ queued_calls heard_by n) }
{
    let center = cluster.nodes()[node as usize].center();
    (
        center.fast().log().len(),
        center.queued().inner().log().len(),
    )
}

/// Notes the calls of a turn, if there were some.
fn note(all: &mut TurnCallsList, calls: TurnCalls)
    requires { 0 < all.old.room }
    ensures { all.new.items ≡ all.old.items ++ noted calls }
{
    if calls.fast > 0 || calls.queued > 0 {
        all.push_reserved(calls);
    }
}
