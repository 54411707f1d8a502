//! The sockets between all nodes.

ghost use Rattle.std.specs.Prelude.{◌≡◌, ◌<◌, length, OnOk};
ghost use Rattle.m2_fabric.specs.InStep.{IsInStep, Network};
ghost use Rattle.m2_fabric.specs.Meeting.{Arrive, acceptor, all_entered, arrivals, arrivals_at, entered};
ghost use Rattle.m2_fabric.specs.SimFabric.{AreApart, Enters, Faults, Flows, IsPassedOn, Meets, fresh_fabric};

use crate::direction::fail;
use crate::kept::Kept;
use crate::meeting::{acceptor, copy_from, looked_at, set_looked};
use crate::pair::{Pair, between, chosen, is_kept, keep, numbered, pass_all};
use crate::passing::Passing;
use crate::{Holder, SocketId};
use m2_addr::Addr;
use m2_bytes::{Blob, Items, NoMemory};
use std::alloc::Global;
use std::marker::Model;

/// Addresses in order.
pub type AddrList = Items<Addr>;

/// The sockets between each two nodes, in the order in which they were opened, and how much of each
/// direction has flowed. Nodes are numbered from 0, and the sockets between two nodes from 1.
///
/// The ends are a [`Holder`]'s, which is passed to each call: [`meet`](SimFabric::meet) after each turn
/// and each mark-down of a node, [`flow`](SimFabric::flow) and [`fault`](SimFabric::fault) at will. Each has the
/// condition that the holder is in step, and leaves it so: what an open end has got, followed by what is
/// readable at it, is what flowed of what the other end has put; and at ends of sockets that aren't kept
/// nothing was got and nothing is readable. After want of memory of one of the three the run ends:
/// nothing is said of what they leave then.
#[derive(Drop)]
pub struct SimFabric {
    alloc: Global,
    nodes: AddrList,
    looked: Vec<usize>,
    pairs: Vec<Pair>,
    piece: Blob,
}

impl Model for SimFabric {
    ghost use Rattle.m2_fabric.specs.InStep.{SeenFabric};
    ghost use Rattle.std.specs.Prelude.{length};
    ghost use Rattle.m2_fabric.specs.Kept.{AreKept};

    ghost Value = { SeenFabric };

    ghost view = { λ f. record { nodes = f.nodes.items; looked = f.looked.items; pairs = f.pairs.items } };

    ghost invariant = { λ f. AreKept (length f.nodes.items) f.pairs.items };
}

impl SimFabric {
    /// The sockets between nodes at these addresses: none so far. Takes no memory.
    pub fn new(alloc: Global, nodes: AddrList) -> SimFabric
        requires { AreApart nodes.items }
        ensures { result ≡ fresh_fabric nodes.items }
    {
        SimFabric {
            alloc,
            nodes,
            looked: Vec::new(alloc),
            pairs: Vec::new(alloc),
            piece: Blob::empty(alloc),
        }
    }

    /// Enters the sockets that the node opened, makes them incoming at the other node, and tells each open end
    /// whose other end the node has closed: that it is closed, and that nothing more will come where all
    /// that was written has flowed.
    pub fn meet<H: Holder>(&mut self, h: &mut H, node: u32) -> Result<(), NoMemory>
        requires node { node < length self.old.nodes }
        requires in_step { IsInStep (record { fabric = self.old; holder = H.seen h.old }) }
        ensures in_step { OnOk result (IsInStep (record { fabric = self.new; holder = H.seen h.new })) }
        ensures meets { OnOk result (Meets node (record { fabric = self.old; holder = H.seen h.old })
            (record { fabric = self.new; holder = H.seen h.new })) }
        ensures rest { H.rest h.new ≡ H.rest h.old }
    {
        self.enter_made(h, node)?;
        self.pass(
            h,
            &Passing {
                from: node,
                to: None,
                socket: None,
                most: 0,
            },
        )
    }

    /// What node a wrote becomes readable at node b: at most `most` bytes of the socket of that number, or of
    /// each socket where the number is 0. To a closed end nothing flows. Where the end that wrote is closed, the other
    /// is told so, and that nothing more will come once all has flowed.
    pub fn flow<H: Holder>(
        &mut self,
        h: &mut H,
        a: u32,
        b: u32,
        socket: u32,
        most: u64,
    ) -> Result<(), NoMemory>
        requires a { a < length self.old.nodes }
        requires b { b < length self.old.nodes }
        requires in_step { IsInStep (record { fabric = self.old; holder = H.seen h.old }) }
        ensures in_step { OnOk result (IsInStep (record { fabric = self.new; holder = H.seen h.new })) }
        ensures flows { OnOk result (Flows a b socket most (record { fabric = self.old; holder = H.seen h.old })
            (record { fabric = self.new; holder = H.seen h.new })) }
        ensures rest { H.rest h.new ≡ H.rest h.old }
    {
        let what = Passing {
            from: a,
            to: Some(b),
            socket: None,
            most,
        };
        if socket == 0 {
            return self.pass(h, &what);
        }
        let Some(kept) = numbered(socket as usize, between(self.pairs.as_slice(), a, b)) else {
            return Ok(());
        };
        self.pass(
            h,
            &Passing {
                socket: Some(kept.id),
                ..what
            },
        )
    }

    /// Node a's end of the socket to node b of that number fails from now on, or that of the newest one
    /// where the number is 0. Nothing happens where there is no such end, or where it is closed; an end that waits for an accept
    /// fails too.
    pub fn fault<H: Holder>(
        &mut self,
        h: &mut H,
        a: u32,
        b: u32,
        socket: u32,
    ) -> Result<(), NoMemory>
        requires a { a < length self.old.nodes }
        requires b { b < length self.old.nodes }
        requires in_step { IsInStep (record { fabric = self.old; holder = H.seen h.old }) }
        ensures in_step { OnOk result (IsInStep (record { fabric = self.new; holder = H.seen h.new })) }
        ensures faults { OnOk result (Faults a b socket (record { fabric = self.old; holder = H.seen h.old })
            (record { fabric = self.new; holder = H.seen h.new })) }
        ensures rest { H.rest h.new ≡ H.rest h.old }
    {
        let Some(kept) = chosen(socket, between(self.pairs.as_slice(), a, b)) else {
            return Ok(());
        };
        fail(h, a, &kept.id)
    }

    /// Passes on what the directions do that `what` is about.
    fn pass<H: Holder>(&mut self, h: &mut H, what: &Passing) -> Result<(), NoMemory>
        requires in_step { IsInStep (record { fabric = self.old; holder = H.seen h.old }) }
        ensures in_step { OnOk result (IsInStep (record { fabric = self.new; holder = H.seen h.new })) }
        ensures passed { OnOk result (IsPassedOn what.now (record { fabric = self.old; holder = H.seen h.old })
            (record { fabric = self.new; holder = H.seen h.new })) }
        ensures rest { H.rest h.new ≡ H.rest h.old }
    {
        pass_all(&mut self.pairs, h, &mut self.piece, what)
    }

    /// Enters a socket that the node made, if it opened it.
    fn enter<H: Holder>(&mut self, h: &mut H, node: u32, id: &SocketId) -> Result<(), NoMemory>
        requires node { node < length self.old.nodes }
        requires in_step { IsInStep (record { fabric = self.old; holder = H.seen h.old }) }
        ensures in_step { OnOk result (IsInStep (record { fabric = self.new; holder = H.seen h.new })) }
        ensures fabric { OnOk result (self.new ≡ record self.old { pairs = entered self.old.nodes node id.now self.old.pairs }) }
        ensures arrive { OnOk result (Arrive (arrivals_at id.now self.old.pairs (acceptor self.old.nodes node id.now)) (H.seen h.old) (H.seen h.new)) }
        ensures rest { H.rest h.new ≡ H.rest h.old }
    {
        let Some(other) = acceptor(self.nodes.as_slice(), node, id) else {
            return Ok(());
        };
        if is_kept(id, self.pairs.as_slice()) {
            return Ok(());
        }
        h.incoming(other, *id)?;
        keep(self.alloc, &mut self.pairs, node, other, Kept::new(*id))
    }

    /// Enters those of some sockets that the node opened, in order.
    fn enter_each<H: Holder>(
        &mut self,
        h: &mut H,
        node: u32,
        ids: &[SocketId],
    ) -> Result<(), NoMemory>
        requires node { node < length self.old.nodes }
        requires in_step { IsInStep (record { fabric = self.old; holder = H.seen h.old }) }
        ensures in_step { OnOk result (IsInStep (record { fabric = self.new; holder = H.seen h.new })) }
        ensures fabric { OnOk result (self.new ≡ record self.old { pairs = all_entered self.old.nodes node ids.now self.old.pairs }) }
        ensures arrive { OnOk result (Arrive (arrivals self.old.nodes node ids.now self.old.pairs) (H.seen h.old) (H.seen h.new)) }
        ensures rest { H.rest h.new ≡ H.rest h.old }
    {
        match ids.split_first() {
            None => Ok(()),
            Some((id, rest)) => {
                self.enter(h, node, id)?;
                self.enter_each(h, node, rest)
            }
        }
    }

    /// Enters the sockets that the node opened since its last meeting.
    fn enter_made<H: Holder>(&mut self, h: &mut H, node: u32) -> Result<(), NoMemory>
        requires node { node < length self.old.nodes }
        requires in_step { IsInStep (record { fabric = self.old; holder = H.seen h.old }) }
        ensures in_step { OnOk result (IsInStep (record { fabric = self.new; holder = H.seen h.new })) }
        ensures enters { OnOk result (Enters node (record { fabric = self.old; holder = H.seen h.old })
            (record { fabric = self.new; holder = H.seen h.new })) }
        ensures rest { H.rest h.new ≡ H.rest h.old }
    {
        let looked = looked_at(self.looked.as_slice(), node as usize);
        let made = h.made(node);
        let total = made.len();
        let opened = copy_from(self.alloc, made.as_slice(), looked)?;
        self.enter_each(h, node, opened.as_slice())?;
        set_looked(&mut self.looked, node as usize, total)
    }
}
