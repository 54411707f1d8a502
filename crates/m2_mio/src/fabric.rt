//! A fabric over sockets of the system.

ghost use Rattle.std.specs.Prelude.{◌≡◌, [], length, map, replicate, is_some, IfOk, OnOk, Some};
ghost use Rattle.std.specs.Option.{option_copied};
ghost use Rattle.m2_fabric.specs.Fabric.{Gathers};
ghost use Rattle.m2_ports.specs.Nodes.{shown};
ghost use Rattle.m2_ports.specs.Port.{unused_port, with_acceptor};

use crate::address::system_addr;
use crate::end::MioEnd;
use crate::port::{Bells, MioPort};
use m2_addr::Addr;
use m2_bytes::{Items, NoMemory};
use m2_edge::Count;
use m2_fabric::{End, EndList, Fabric, ListenFault, Port, PortList};
use m2_ports::{GatheredNode, Nodes};
use mio::net::TcpListener;
use std::alloc::Global;
use std::net::Net;
use std::sync::Arc;

/// A fabric over sockets of the system. It opens nothing before the first listen or split.
///
/// A node's listener goes to the first port of its split, and comes back when the node is gathered. What
/// was gathered is kept until the node is gathered again. A listen for which there is no memory answers
/// that, and is no fault.
#[derive(Drop)]
pub struct MioFabric<R: Net + Copy> {
    rt: R,
    alloc: Global,
    nodes: Nodes<MioPort<R>, TcpListener>,
    faults: Count,
}

impl<R: Net + Copy> MioFabric<R> {
    /// No nodes. Takes no memory.
    pub fn new(rt: R, alloc: Global) -> MioFabric<R>
        ensures { ⟦<MioFabric<R> as Fabric>⟧.seen result ≡ shown 0 [] }
    {
        MioFabric {
            rt,
            alloc,
            nodes: Nodes::empty(alloc),
            faults: Count::new(),
        }
    }

    /// The ports and ends of a node that were gathered last; none exactly where none were.
    pub fn gathered(&self, node: u32) -> Option<&GatheredNode<MioPort<R>>>
        ensures { option_copied result ≡ (⟦<MioFabric<R> as Fabric>⟧.seen self.now).gathered node }
    {
        self.nodes.gathered(node)
    }
}

/// So many ports of a node at an address, of which none accepts.
fn new_ports<R: Net + Copy>(
    rt: R,
    alloc: Global,
    at: Addr,
    count: u32,
) -> Result<Vec<MioPort<R>>, NoMemory>
    ensures { IfOk result (λ ports. ports.items ≡ replicate count (unused_port at)) }
{
    let mut ports = Vec::with_capacity(alloc, count as usize)?;
    'ports: for _ in 0..count {
        ports.push(MioPort::new(rt, alloc, at)?)?;
    }
    Ok(ports)
}

/// So many, each of which can ring all, where there are several.
fn ringing_ports<R: Net + Copy>(
    rt: R,
    alloc: Global,
    at: Addr,
    count: u32,
) -> Result<Vec<MioPort<R>>, NoMemory>
    ensures { IfOk result (λ ports. ports.items ≡ replicate count (unused_port at)) }
{
    let mut ports = new_ports(rt, alloc, at, count)?;
    hang_bells(alloc, &mut ports)?;
    Ok(ports)
}

/// Has the ports of a node ring one another, where there are several.
fn hang_bells<R: Net + Copy>(alloc: Global, ports: &mut Vec<MioPort<R>>) -> Result<(), NoMemory>
    ensures { OnOk result (ports.new.items ≡ ports.old.items) }
{
    if ports.len() < 2 {
        return Ok(());
    }
    let mut wakers = Vec::with_capacity(alloc, ports.len())?;
    'wakers: for port in ports.iter() {
        wakers.push(port.waker())?;
    }
    let bells = Arc::new(alloc, wakers)?;
    hang_all(ports.as_mut_slice(), &bells)
}

/// Has these ring all of these bells.
fn hang_all<R: Net + Copy>(ports: &mut [MioPort<R>], bells: &Bells) -> Result<(), NoMemory>
    ensures { OnOk result (ports.new ≡ ports.old) }
{
    match ports.split_first_mut() {
        None => Ok(()),
        Some((first, rest)) => {
            first.hang(Arc::try_clone(bells)?);
            hang_all(rest, bells)
        }
    }
}

/// Has the first port accept from a listener, where there are both.
fn give_listener<R: Net + Copy>(ports: &mut Vec<MioPort<R>>, listener: Option<TcpListener>)
    ensures { ports.new.items ≡ with_acceptor (is_some listener) ports.old.items }
{
    let Some(listener) = listener else {
        return;
    };
    if !ports.is_empty() {
        ports[0].accept_from(listener);
    }
}

/// Ends the use of ports, and gives the listener back that one of them had. What they tell stays.
fn retire_all<R: Net + Copy>(ports: &mut [MioPort<R>]) -> Option<TcpListener>
    ensures { ports.new ≡ ports.old }
{
    match ports.split_first_mut() {
        None => None,
        Some((first, rest)) => {
            let own = first.retire();
            let others = retire_all(rest);
            own.or(others)
        }
    }
}

/// The same in a vector.
fn retire_ports<R: Net + Copy>(ports: &mut Vec<MioPort<R>>) -> Option<TcpListener>
    ensures { ports.new.items ≡ ports.old.items }
{
    retire_all(ports.as_mut_slice())
}

impl<R: Net + Copy> Fabric for MioFabric<R> {
    type Port = MioPort<R>;

    ghost seen = { λ f. shown f.faults f.nodes };

    fn listen(&mut self, node: u32, at: &Addr) -> Result<(), ListenFault> {
        if self.nodes.enter(node).is_err() {
            return Err(ListenFault::NoMemory);
        }
        match TcpListener::bind(&self.rt, system_addr(at)) {
            Ok(listener) => {
                let _ = self.nodes.listen(node, at, listener);
                Ok(())
            }
            Err(_) => {
                self.faults.add();
                Err(ListenFault::Failed)
            }
        }
    }

    fn split(&mut self, node: u32, centers: u32) -> Result<PortList<MioPort<R>>, NoMemory> {
        let at = self.nodes.at(node);
        let mut ports = ringing_ports(self.rt, self.alloc, at, centers)?;
        let listener = self.nodes.hand_out(node, ports.len())?;
        give_listener(&mut ports, listener);
        Ok(Items::from_vec(ports))
    }

    fn gather(&mut self, node: u32, ports: PortList<MioPort<R>>, ends: EndList<MioEnd>)
        requires { (shown self.old.faults self.old.nodes).out node ≡ Some (length ports.items) }
        ensures { Gathers node (record { ports = map ⟦<MioPort<R> as Port>⟧.seen ports.items; ends = map ⟦<MioEnd as End>⟧.seen ends.items })
            (shown self.old.faults self.old.nodes) (shown self.new.faults self.new.nodes) }
    {
        let mut ports = ports.into_vec();
        let listener = retire_ports(&mut ports);
        let kept = GatheredNode {
            ports: Items::from_vec(ports),
            ends,
        };
        let _ = self.nodes.take_in(node, kept, listener);
    }
}
