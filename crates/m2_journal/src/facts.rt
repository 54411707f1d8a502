//! What a record knows from its start, and what it is to do.

use m2_bytes::Items;
use m2_message::Message;
use m2_policy::{FastSet, Rules};

/// What a node tells its records.
#[derive(Debug, Drop)]
pub struct NodeFacts {
    /// The kind of the node, as HELLO names it.
    pub entity: u8,
    /// Its place among the nodes, from 0.
    pub number: u32,
    /// The features that it supports, a bit each.
    pub supports: u64,
    /// The features that it requires of a peer.
    pub requires_: u64,
    /// The kinds of messages that it dispatches at once.
    pub fast: FastSet,
    /// The wait before the first new connect after a fault, in milliseconds.
    pub first_wait: u64,
    /// The longest such wait, in milliseconds.
    pub most_wait: u64,
    /// The salt of its cookies, drawn once for a run.
    pub salt: u16,
    /// The rules that it has chosen.
    pub rules: Rules,
}

/// One step of a record's plan.
#[derive(Debug, Drop)]
pub enum PlanStep {
    /// A message for the peer.
    Post(Message),
    /// A socket is to be opened though nothing is to be written.
    Dial,
    /// The session is to be given up.
    Down,
}

/// A plan.
pub type PlanList = Items<PlanStep>;
