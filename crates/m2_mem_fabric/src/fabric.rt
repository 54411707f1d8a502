//! A fabric over sockets between threads.

ghost use Rattle.std.specs.Prelude.{◌≡◌, [], false, length, map, replicate, is_some, IfOk, Some};
ghost use Rattle.std.specs.Option.{option_copied};
ghost use Rattle.m2_fabric.specs.Fabric.{Gathers};
ghost use Rattle.m2_ports.specs.Nodes.{node_of, shown};
ghost use Rattle.m2_ports.specs.Port.{unused_port, with_acceptor};

use crate::bells::Bells;
use crate::call::MemCall;
use crate::end::MemEnd;
use crate::network::Network;
use crate::port::{MemPort, SharedNetwork};
use m2_addr::Addr;
use m2_bytes::{Items, NoMemory};
use m2_edge::Count;
use m2_fabric::{End, EndList, Fabric, ListenFault, Port, PortList};
use m2_ports::{GatheredNode, Nodes};
use std::alloc::Global;
use std::marker::Model;
use std::sync::{Arc, Mutex, Wait};

/// A fabric over sockets between threads, on which everything flows at once. Contracts see its
/// nodes, how many faults there were, and whether a node was listened for or split.
///
/// One node at a time listens at an ip and port: another listen there fails, and so does one that is
/// planned to. One for which there is no memory answers that, and is no fault. Where a node listens anew,
/// what waited at its former address is dropped, once no port has it. What was gathered is kept until the
/// node is gathered again, and its ends that weren't closed stay open for the other side.
#[derive(Drop)]
pub struct MemFabric<R: Wait + Copy> {
    rt: R,
    alloc: Global,
    network: SharedNetwork<R>,
    nodes: Nodes<MemPort<R>, u32>,
    faults: Count,
    begun: bool,
}

impl<R: Wait + Copy> Model for MemFabric<R> {
    ghost use Rattle.m2_mem_fabric.specs.Fabric.{MemShown};

    ghost Value = { MemShown };

    ghost view = { λ f. record { nodes = f.nodes; faults = f.faults; begun = f.begun } };
}

impl<R: Wait + Copy> MemFabric<R> {
    /// No nodes, and no call is to fail.
    pub fn new(rt: R, alloc: Global) -> Result<MemFabric<R>, NoMemory>
        ensures { IfOk result (λ f. f ≡ record { nodes = []; faults = 0; begun = false }) }
    {
        let network = Arc::new(alloc, Mutex::new(Network::new(alloc)))?;
        Ok(MemFabric {
            rt,
            alloc,
            network,
            nodes: Nodes::empty(alloc),
            faults: Count::new(),
            begun: false,
        })
    }

    /// Has one call fail: of its kind the one at a place, counted from 1. It answers Failed, and is counted
    /// as a fault; the calls behind it answer as before. To be said before the first listen and the first
    /// split.
    pub fn fail(&mut self, call: MemCall, at: u32) -> Result<(), NoMemory>
        requires { self.old.begun ≡ false }
        ensures { self.new ≡ self.old }
    {
        self.network.lock(&self.rt).plan.add(call, at)
    }

    /// The ports and ends of a node that were gathered last; none exactly where none were.
    pub fn gathered(&self, node: u32) -> Option<&GatheredNode<MemPort<R>>>
        ensures { option_copied result ≡ (node_of node self.now.nodes).gathered }
    {
        self.nodes.gathered(node)
    }
}

/// So many ports of a node at an address, of which none accepts.
fn new_ports<R: Wait + Copy>(
    rt: R,
    alloc: Global,
    network: &SharedNetwork<R>,
    node: u32,
    at: Addr,
    bells: &Arc<Bells, Global>,
    count: u32,
) -> Result<Vec<MemPort<R>>, NoMemory>
    ensures { IfOk result (λ ports. ports.items ≡ replicate count (unused_port at)) }
{
    let mut ports = Vec::with_capacity(alloc, count as usize)?;
    'ports: for place in 0..count {
        let (network, bells) = (Arc::try_clone(network)?, Arc::try_clone(bells)?);
        ports.push(MemPort::new(rt, alloc, network, node, place, at, bells))?;
    }
    Ok(ports)
}

/// Has the first port accept from a listener, where there are both.
fn give_listener<R: Wait + Copy>(ports: &mut Vec<MemPort<R>>, listener: Option<u32>)
    ensures { ports.new.items ≡ with_acceptor (is_some listener) ports.old.items }
{
    let Some(listener) = listener else {
        return;
    };
    if !ports.is_empty() {
        ports[0].accept_from(listener);
    }
}

/// What one of the ports accepts from, if one does.
fn listener_of<R: Wait + Copy>(ports: &[MemPort<R>]) -> Option<u32> {
    ports.iter().find_map(|port| port.listener())
}

impl<R: Wait + Copy> Fabric for MemFabric<R> {
    type Port = MemPort<R>;

    ghost seen = { λ f. shown f.faults f.nodes };

    fn listen(&mut self, node: u32, at: &Addr) -> Result<(), ListenFault> {
        self.begun = true;
        if self.nodes.enter(node).is_err() {
            return Err(ListenFault::NoMemory);
        }
        let listener = match self.network.lock(&self.rt).listen(at) {
            Ok(listener) => listener,
            Err(ListenFault::Failed) => {
                self.faults.add();
                return Err(ListenFault::Failed);
            }
            Err(ListenFault::NoMemory) => return Err(ListenFault::NoMemory),
        };
        if let Some(former) = self.nodes.listen(node, at, listener) {
            self.network.lock(&self.rt).silence(former);
        }
        Ok(())
    }

    fn split(&mut self, node: u32, centers: u32) -> Result<PortList<MemPort<R>>, NoMemory> {
        self.begun = true;
        let at = self.nodes.at(node);
        let bells = Arc::new(self.alloc, Bells::new(self.alloc, centers)?)?;
        let mut ports = new_ports(
            self.rt,
            self.alloc,
            &self.network,
            node,
            at,
            &bells,
            centers,
        )?;
        let listener = self.nodes.hand_out(node, ports.len())?;
        give_listener(&mut ports, listener);
        if let Some(listener) = listener {
            self.network.lock(&self.rt).attend(listener, bells);
        }
        Ok(Items::from_vec(ports))
    }

    fn gather(&mut self, node: u32, ports: PortList<MemPort<R>>, ends: EndList<MemEnd<R>>)
        requires { (shown self.old.faults self.old.nodes).out node ≡ Some (length ports.items) }
        ensures { Gathers node (record { ports = map ⟦<MemPort<R> as Port>⟧.seen ports.items; ends = map ⟦<MemEnd<R> as End>⟧.seen ends.items })
            (shown self.old.faults self.old.nodes) (shown self.new.faults self.new.nodes) }
    {
        let listener = listener_of(ports.as_slice());
        let kept = GatheredNode { ports, ends };
        if let Some(unused) = self.nodes.take_in(node, kept, listener) {
            self.network.lock(&self.rt).silence(unused);
        }
    }
}
