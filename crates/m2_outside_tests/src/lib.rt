//! Tests of what a run meets outside: sockets of each kind, what threads share, and the clock and the gate of a run.
//!
//! What it is: what sockets do, as functions that go by the traits alone (bytes both ways, ends that are closed, nobody
//! there, further ports, waiting, a node that is gathered; and in memory calls that are made to fail), and a file for
//! each kind of sockets that calls them; what comes of a throttle, a counter of numbers, an inbox and a gate that several
//! threads use at once; and what three stages of throttles grant. They stand apart from the crates, since a crate with tests is proved twice, and
//! together, since each crate of tests loads its libraries again. What it isn't: what a clause says already, or what
//! the scenarios of `examples/` show, which the gate runs.
#![tactic(auto)]

#[cfg(test)]
mod clock;
#[cfg(test)]
mod facts;
#[cfg(test)]
mod failing;
#[cfg(test)]
mod gate;
#[cfg(test)]
mod inbox;
#[cfg(test)]
mod linear;
#[cfg(test)]
mod memory;
#[cfg(test)]
mod numbers;
#[cfg(test)]
mod pieces;
#[cfg(test)]
mod socket_ends;
#[cfg(test)]
mod stages;
#[cfg(test)]
mod system;
#[cfg(test)]
mod throttle;
