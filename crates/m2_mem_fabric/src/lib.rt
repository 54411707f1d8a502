//! Sockets in memory between threads, as ends, ports and a fabric.
//!
//! What it is: [`MemFabric`], which listens for nodes and gives them their ports; [`MemPort`], which opens
//! and accepts sockets for one event thread; [`MemEnd`], one end of a socket. What is written at one end
//! can be read at the other at once, in order, and whole. [`MemCall`] names calls that can be made to fail,
//! one by one. What it isn't: a plain value. Its streams stand under locks, so contracts tell nothing of
//! what is readable: they say what each call answered, and that the answer is kept in the end's log or in a
//! count. That an end reads what the other wrote is known of one stream alone, as the lock is held.
//!
//! A call waits for a lock for as long as another call needs it. [`poll`](m2_fabric::Port::poll) waits
//! longer: until something comes to its node, or the time is up.
#![tactic(auto)]

mod bells;
mod call;
mod end;
mod fabric;
mod failing;
mod line;
mod network;
mod plan;
mod port;
mod stream;

pub use call::MemCall;
pub use end::MemEnd;
pub use fabric::MemFabric;
pub use port::MemPort;
