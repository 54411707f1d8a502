//! Sockets as traits, and sockets in memory as plain values: what an end of a socket does, what a port opens and
//! accepts, and what a fabric tells of both afterwards.
//!
//! What it is: [`SocketId`], a socket's name; [`EndLog`], all that an end did; the traits [`End`] (one end of a
//! socket), [`Port`] (what opens and accepts sockets for one event thread) and [`Fabric`] (what gives a node its ports
//! and tells of them afterwards). [`MemoryPort`] and [`MemoryEnd`] say more of ports and ends in memory, and [`Holder`]
//! is whoever has the ports and ends of all nodes in memory. [`SimEnd`] and [`SimPort`] are an end and a port as values
//! that share nothing: what flows between them is told by whoever drives them; [`CutEnd`] and [`CutPort`] are any end
//! and port, of which an end fails once so many bytes passed; and [`SimFabric`] has the sockets between nodes in
//! memory, and what flows on them. What it isn't: threads, or a real network.
//!
//! Each end, port and fabric has a count of faults, and answers `Failed` only where it rose. Contracts see of an end
//! its socket, its log, its faults and how much is left before it is cut, and each call by one relation by cases on its
//! answer. Ends and ports in memory answer exactly ([`memory_is_exact`]); want of memory alone is free.
#![tactic(auto)]

mod cut_end;
mod cut_port;
mod direction;
mod end;
mod fabric;
mod holder;
mod kept;
mod kinds;
mod laws;
mod log;
mod meeting;
mod newest;
mod pair;
mod passing;
mod port;
mod sim_end;
mod sim_fabric;
mod sim_made;
mod sim_port;
mod socket;

pub use cut_end::CutEnd;
pub use cut_port::CutPort;
pub use end::{End, EndRead, EndWrite, News};
pub use fabric::{Fabric, ListenFault};
pub use holder::Holder;
pub use kinds::{MemoryEnd, MemoryPort, are_in_memory};
pub use laws::memory_is_exact;
pub use log::{EndLog, MOST_MOVED, Run, RunList};
pub use port::{Connect, Cut, CutList, EndList, Port, PortList, Taken};
pub use sim_end::SimEnd;
pub use sim_fabric::{AddrList, SimFabric};
pub use sim_port::SimPort;
pub use socket::{SocketId, SocketIdList, is_among};
