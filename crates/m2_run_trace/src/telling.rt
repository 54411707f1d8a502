//! What the lines of a node are made from.

ghost use Rattle.std.specs.Prelude.{◌≡◌, ◌∷◌, [], MatchOption};
ghost use Rattle.m2_run_trace.specs.Telling.{log_in, seen_log, telling_at};

use crate::lists::at;
use m2_dispatch::{LogDispatcher, Logged};
use m2_fabric::{CutEnd, CutPort, EndLog, SimEnd, SimPort, SocketId};
use m2_promise::{Center, Cluster, Record};
use m2_scenario::Node;
use std::marker::Model;

/// Nodes in memory.
pub(crate) type TracedCluster = Cluster<CutPort<SimPort>, LogDispatcher>;

/// The center of one.
pub(crate) type TracedCenter = Center<CutPort<SimPort>, LogDispatcher>;

/// A record of one.
pub(crate) type TracedRecord = Record<CutEnd<SimEnd>>;

/// What the lines of a node are made from: all nodes of the scenario, the node, and its center.
#[derive(Drop)]
pub(crate) struct Teller<'a> {
    pub nodes: &'a [Node],
    pub own: &'a Node,
    pub center: &'a TracedCenter,
}

impl<'a> Model for Teller<'a> {
    ghost use Rattle.m2_run_trace.specs.Telling.{Telling};

    ghost Value = { Telling };

    ghost view = { λ t. record { nodes = t.nodes.now; own = t.own.now; center = t.center.now } };
}

impl<'a> Teller<'a> {
    /// Of the node at this place; none exactly where there is none.
    pub(crate) fn of(nodes: &'a [Node], cluster: &'a TracedCluster, node: u32) -> Option<Teller<'a>>
        ensures { result ≡ telling_at nodes.now cluster.now.nodes node }
    {
        let Some(own) = at(nodes, node as usize) else {
            return None;
        };
        let Some(its) = at(cluster.nodes(), node as usize) else {
            return None;
        };
        Some(Teller {
            nodes,
            own,
            center: its.center(),
        })
    }

    /// What the node's end of a socket did; none where it has none.
    pub(crate) fn log(&self, socket: &SocketId) -> Option<&'a EndLog>
        ensures { seen_log result ≡ log_in self.now.center socket.now }
    {
        self.center.log(socket)
    }
}

/// Calls of a dispatcher that aren't told yet. Contracts see them in order.
#[derive(Drop)]
pub(crate) struct Calls<'a> {
    rest: &'a [Logged],
}

impl<'a> Model for Calls<'a> {
    ghost use Rattle.std.specs.Prelude.{List};
    ghost use Rattle.m2_dispatch.specs.declared.logged.Logged.{Logged};

    ghost Value = { List Logged };

    ghost view = { λ c. c.rest.now };
}

impl<'a> Calls<'a> {
    pub(crate) fn of(calls: &'a [Logged]) -> Calls<'a>
        ensures { result ≡ calls.now }
    {
        Calls { rest: calls }
    }

    /// The next one, told from now on; none exactly where none is left.
    pub(crate) fn next(&mut self) -> Option<&'a Logged>
        ensures { MatchOption result ((self.old ≡ []) × (self.new ≡ [])) (λ call. self.old ≡ call.now ∷ self.new) }
    {
        match self.rest.split_first() {
            None => None,
            Some((first, rest)) => {
                self.rest = rest;
                Some(first)
            }
        }
    }

    pub(crate) fn as_slice(&self) -> &'a [Logged]
        ensures { result.now ≡ self.now }
    {
        self.rest
    }
}
