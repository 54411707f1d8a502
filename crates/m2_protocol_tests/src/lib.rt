//! Tests of the wire, of the handshake and of a session's judgements: texts and checksums that other programs wrote,
//! payloads and tags as Ceph's documentation has them, and the tables of judgement as docs/PROTOCOL.md has them.
//!
//! What it is: a file for each crate, and two for `m2_frame`. They stand apart from the crates, since a crate with tests
//! is proved twice. What it isn't: what a clause says already, or what the files of `examples/` show, which the gate
//! runs.
//!
//! Values stand in tables, and what can end early works on borrowed values: a test is proved too, and a long one that
//! owns much is dear.
#![tactic(auto)]

#[cfg(test)]
mod addr;
#[cfg(test)]
mod control;
#[cfg(test)]
mod crc;
#[cfg(test)]
mod frame;
#[cfg(test)]
mod handshake;
#[cfg(test)]
mod header;
#[cfg(test)]
mod session;
#[cfg(test)]
mod tag;
