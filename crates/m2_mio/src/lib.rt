//! Sockets of the system, over TCP and epoll, as ends, ports and a fabric.
//!
//! What it is: [`MioFabric`], which listens for nodes and gives them their ports; [`MioPort`], which
//! opens and accepts sockets for one event thread and waits for what its sockets have to tell;
//! and [`MioEnd`], one end of a socket. What it isn't: a promise of what the system does. Contracts say
//! what its calls answered, and that each answer is kept in the end's log or in a count; they tell nothing
//! of what will come.
//!
//! No call but [`poll`](m2_fabric::Port::poll) and, for at most [`CONNECT_WAIT`] milliseconds,
//! [`connect`](m2_fabric::Port::connect) waits.
#![tactic(auto)]

mod address;
mod end;
mod fabric;
mod port;
mod stream;
mod watch;

pub use end::MioEnd;
pub use fabric::MioFabric;
pub use port::MioPort;
pub use stream::CONNECT_WAIT;
