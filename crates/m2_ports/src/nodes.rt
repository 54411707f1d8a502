//! The nodes of a fabric.

ghost use Rattle.std.specs.Prelude.{◌≡◌, ◌<◌, ℕ, [], length, position, is_some, Some, IfSome, IsSome, IfOk, OnErr, OnOk};
ghost use Rattle.std.specs.Option.{option_copied};
ghost use Rattle.m2_fabric.specs.Fabric.{ArePortsOf, Gathers, ListensAlone, Splits};
ghost use Rattle.m2_ports.specs.Nodes.{IsThere, at_of, blank, handed_out, is_number, node_of, shown, taken_in};
ghost use Rattle.m2_ports.specs.Port.{ports_at};

use m2_addr::Addr;
use m2_bytes::NoMemory;
use m2_edge::Count;
use m2_fabric::{EndList, Port, PortList};
use std::alloc::Global;
use std::marker::Model;

/// Where a port of a node that doesn't listen stands.
pub const NOWHERE: Addr = Addr {
    kind: 0,
    nonce: 0,
    ip: 0,
    port: 0,
};

/// The ports of a node and the ends that were made of them, once they are gathered.
#[derive(Drop)]
pub struct GatheredNode<P: Port> {
    pub ports: PortList<P>,
    pub ends: EndList<P::End>,
}

impl<P: Port> Model for GatheredNode<P> {
    ghost use Rattle.std.specs.Prelude.{map};
    ghost use Rattle.m2_fabric.specs.Fabric.{Gathered};

    ghost Value = { Gathered };

    ghost view = { λ k. record { ports = map P.seen k.ports.items; ends = map P.End.seen k.ends.items } };
}

/// What a fabric has of one node.
#[derive(Drop)]
struct Node<P: Port, L> {
    number: u32,
    /// Where it listens.
    at: Option<Addr>,
    /// What it listens with, while no port has it.
    listener: Option<L>,
    /// How many ports its last split gave, while they are out.
    out: Option<usize>,
    kept: Option<GatheredNode<P>>,
    /// How often it was gathered.
    gathers: Count,
}

impl<P: Port, L> Model for Node<P, L> {
    ghost use Rattle.m2_ports.specs.Nodes.{SeenNode};

    ghost Value = { SeenNode };

    ghost view = { λ n. record { number = n.number; listens = n.at; out = n.out; gathered = n.kept; gathers = n.gathers } };
}

impl<P: Port, L: Drop> Node<P, L> {
    /// A node that did nothing so far.
    fn new(number: u32) -> Node<P, L>
        ensures { result ≡ blank number }
    {
        Node {
            number,
            at: None,
            listener: None,
            out: None,
            kept: None,
            gathers: Count::new(),
        }
    }

    fn number(&self) -> u32
        ensures { result ≡ self.now.number }
    {
        self.number
    }

    /// Where it listens, if it does.
    fn at(&self) -> Option<Addr>
        ensures { result ≡ self.now.listens }
    {
        self.at
    }

    /// What was gathered last, if anything was.
    fn gathered(&self) -> Option<&GatheredNode<P>>
        ensures { option_copied result ≡ self.now.gathered }
    {
        self.kept.as_ref()
    }

    /// Listens at an address from now on. What it listened with before is given back.
    fn listen(&mut self, at: &Addr, listener: L) -> Option<L>
        ensures { self.new ≡ record self.old { listens = Some at.now } }
    {
        self.at = Some(*at);
        self.listener.replace(listener)
    }

    /// Hands so many ports out, and what it listens with, where there is that and a port to take it.
    fn hand_out(&mut self, ports: usize) -> Option<L>
        ensures { self.new ≡ handed_out ports self.old }
    {
        self.out = Some(ports);
        if ports == 0 {
            return None;
        }
        self.listener.take()
    }

    /// Takes ports and ends in, and what the ports listened with. That is given back where the node listens
    /// anew since.
    fn take_in(&mut self, kept: GatheredNode<P>, listener: Option<L>) -> Option<L>
        ensures { self.new ≡ taken_in kept self.old }
    {
        self.kept = Some(kept);
        self.out = None;
        self.gathers.add();
        if self.listener.is_some() {
            return listener;
        }
        self.listener = listener;
        None
    }
}

/// The nodes of a fabric, whose ports are of one type, and which listen with an `L`. Contracts see a list
/// of nodes, of which the first of a number is that node.
///
/// Readers: [`at`](Nodes::at), [`gathered`](Nodes::gathered). [`enter`](Nodes::enter) makes room
/// for a node, so that [`listen`](Nodes::listen) takes no memory; [`hand_out`](Nodes::hand_out) makes it
/// too, and [`take_in`](Nodes::take_in) takes none.
#[derive(Drop)]
pub struct Nodes<P: Port, L> {
    nodes: Vec<Node<P, L>>,
}

impl<P: Port, L> Model for Nodes<P, L> {
    ghost use Rattle.std.specs.Prelude.{List};
    ghost use Rattle.m2_ports.specs.Nodes.{SeenNode};

    ghost Value = { List SeenNode };

    ghost view = { λ n. n.nodes.items };
}

/// The place of a node, from 0; none exactly where it isn't there.
fn place_of<P: Port, L: Drop>(nodes: &[Node<P, L>], number: u32) -> Option<usize>
    ensures place { result ≡ position (is_number number) nodes.now }
    ensures within { IfSome result (λ place. place < length nodes.now) }
{
    nodes.iter().position(|node| node.number() == number)
}

impl<P: Port, L: Drop> Nodes<P, L> {
    /// No nodes. Takes no memory.
    pub fn empty(alloc: Global) -> Nodes<P, L>
        ensures { result ≡ [] }
    {
        Nodes {
            nodes: Vec::new(alloc),
        }
    }

    /// Where the ports of a node stand: where it listens, if it does.
    pub fn at(&self, node: u32) -> Addr
        ensures { result ≡ at_of node self.now }
    {
        match place_of(self.nodes.as_slice(), node) {
            Some(place) => self.nodes[place].at().unwrap_or(NOWHERE),
            None => NOWHERE,
        }
    }

    /// The ports and ends of a node that were gathered last; none exactly where none were.
    pub fn gathered(&self, node: u32) -> Option<&GatheredNode<P>>
        ensures { option_copied result ≡ (node_of node self.now).gathered }
    {
        match place_of(self.nodes.as_slice(), node) {
            Some(place) => self.nodes[place].gathered(),
            None => None,
        }
    }

    /// Makes room for what a node does, so that the calls below can't fail. What is told of each node
    /// stays.
    pub fn enter(&mut self, node: u32) -> Result<(), NoMemory>
        ensures there { OnOk result (IsThere node self.new) }
        ensures same { (n : ℕ) → node_of n self.new ≡ node_of n self.old }
        ensures err { OnErr result (self.new ≡ self.old) }
    {
        if let Some(_) = place_of(self.nodes.as_slice(), node) {
            return Ok(());
        }
        self.nodes.push(Node::new(node))?;
        Ok(())
    }

    /// A node listens at an address from now on. What it listened with before, if no port has it, is given
    /// back.
    pub fn listen(&mut self, node: u32, at: &Addr, listener: L) -> Option<L>
        requires { IsThere node self.old }
        ensures listens { (node_of node self.new).listens ≡ Some at.now }
        ensures alone { (f g : ℕ) → ListensAlone node (shown f self.old) (shown g self.new) }
    {
        match place_of(self.nodes.as_slice(), node) {
            Some(place) => self.nodes[place].listen(at, listener),
            None => unreachable!(),
        }
    }

    /// So many unused ports of a node, where it [stands](Nodes::at), are out from now on. What it listens
    /// with goes with them, where there is that and a port to take it: the first one accepts then.
    pub fn hand_out(&mut self, node: u32, ports: usize) -> Result<Option<L>, NoMemory>
        ensures ports { IfOk result (λ listener.
            ArePortsOf ports (ports_at (is_some listener) ports (at_of node self.old))) }
        ensures out { IfOk result (λ listener. (f : ℕ) →
            Splits node (ports_at (is_some listener) ports (at_of node self.old)) (shown f self.old) (shown f self.new)) }
        ensures err { OnErr result (self.new ≡ self.old) }
    {
        self.enter(node)?;
        Ok(self.hand_out_there(node, ports))
    }

    /// The same of a node that is there.
    fn hand_out_there(&mut self, node: u32, ports: usize) -> Option<L>
        requires { IsThere node self.old }
        ensures ports { ArePortsOf ports (ports_at (is_some result) ports (at_of node self.old)) }
        ensures out { (f : ℕ) →
            Splits node (ports_at (is_some result) ports (at_of node self.old)) (shown f self.old) (shown f self.new) }
    {
        match place_of(self.nodes.as_slice(), node) {
            Some(place) => self.nodes[place].hand_out(ports),
            None => unreachable!(),
        }
    }

    /// Takes ports and ends of a node in whose ports are out, and what the ports listened with. That is
    /// given back where the node listens anew since.
    pub fn take_in(&mut self, node: u32, kept: GatheredNode<P>, listener: Option<L>) -> Option<L>
        requires { IsSome (node_of node self.old).out }
        ensures { (f : ℕ) → Gathers node kept (shown f self.old) (shown f self.new) }
    {
        match place_of(self.nodes.as_slice(), node) {
            Some(place) => self.nodes[place].take_in(kept, listener),
            None => unreachable!(),
        }
    }
}
