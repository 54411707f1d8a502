//! The nodes of the lines so far.

ghost use Rattle.std.specs.Prelude.{◌≡◌, ◌<◌, ◌++◌, ◌∷◌, [], false, length, position, MatchResult};
ghost use Rattle.std.specs.List.{list_any};
ghost use Rattle.m2_scenario.specs.Draft.{is_named, is_at, without};

use crate::node::{Node, NodeList};
use m2_addr::Addr;
use m2_bytes::{Items, NoMemory};
use std::alloc::Global;
use std::collections::{HashMap, HashSet};
use std::marker::Model;

// The nodes so far, with look-ups of the place of a name and of the ips and ports that are taken.
#[derive(Debug, Drop)]
pub(crate) struct NodeTable {
    nodes: Vec<Node>,
    places: HashMap<Vec<u8>, usize>,
    sockets: HashSet<(u32, u16)>,
}

impl Model for NodeTable {
    ghost use Rattle.std.specs.Prelude.{List};
    ghost use Rattle.m2_scenario.specs.declared.node.Node.{Node};
    ghost use Rattle.m2_scenario.specs.NodeTable.{AreLookUps};

    ghost Value = { List Node };

    ghost view = { λ t. t.nodes.items };

    ghost invariant = { λ t. AreLookUps t.nodes.items t.places.entries t.sockets.keys };
}

impl NodeTable {
    pub(crate) fn empty(alloc: Global) -> NodeTable
        ensures { result ≡ [] }
    {
        NodeTable {
            nodes: Vec::new(alloc),
            places: HashMap::new(alloc),
            sockets: HashSet::new(alloc),
        }
    }

    pub(crate) fn as_slice(&self) -> &[Node]
        ensures { result.now ≡ self.now }
    {
        self.nodes.as_slice()
    }

    // The place of the node of this name, from 0.
    pub(crate) fn place(&self, name: &[u8]) -> Option<usize>
        ensures { result ≡ position (is_named name.now) self.now }
    {
        self.places.get(name).copied()
    }

    // Whether a node has this name.
    pub(crate) fn has_name(&self, name: &[u8]) -> bool
        ensures { result ≡ list_any (is_named name.now) self.now }
    {
        self.places.contains_key(name)
    }

    // Whether a node stands at this ip and port.
    pub(crate) fn has_socket(&self, at: Addr) -> bool
        ensures { result ≡ list_any (is_at at) self.now }
    {
        self.sockets.contains(&(at.ip, at.port))
    }

    // Puts a node last whose name is new. Memory is taken for all before anything changes.
    pub(crate) fn push(&mut self, alloc: Global, node: Node) -> Result<(), NoMemory>
        requires { list_any (is_named node.name) self.old ≡ false }
        ensures { MatchResult result (λ _. self.new ≡ self.old ++ node ∷ []) (λ _. self.new ≡ self.old) }
    {
        let name = Vec::from_slice(alloc, node.name.as_slice())?;
        self.nodes.reserve(1)?;
        self.sockets.reserve(1)?;
        self.places.insert(name, self.nodes.len())?;
        self.sockets.insert((node.at.ip, node.at.port))?;
        self.nodes.push(node)?;
        Ok(())
    }

    // Has the node at a place not started.
    pub(crate) fn stop(&mut self, a: usize)
        requires { a < length self.old }
        ensures { self.new ≡ without a self.old }
    {
        self.nodes[a].started = false;
    }

    pub(crate) fn into_list(self) -> NodeList
        ensures { result.items ≡ self }
    {
        Items::from_vec(self.nodes)
    }
}
