//! Schedules.

use m2_bytes::{Blob, Items};
use m2_message::Message;
use m2_policy::Policy;

/// The two sides, by their names in a schedule.
#[derive(Clone, Copy, Debug, PartialEq, Eq)]
pub enum SideName {
    A,
    B,
}

/// What the two sides are from their start.
#[derive(Clone, Copy, Debug, PartialEq, Eq)]
pub struct PairFacts {
    /// The policy of A towards B, and that of B towards A.
    pub of_a: Policy,
    pub of_b: Policy,
    /// How many bytes of messages each side lets in that aren't dispatched yet.
    pub throttle: u64,
}

/// What is to be done at a side. `now` is a moment in milliseconds, and `wire` a socket of the two, counted
/// from 1 in the order in which they were opened.
#[derive(Debug, Drop)]
pub enum Instruction {
    /// A message is planned.
    Post {
        side: SideName,
        message: Message,
    },
    /// A dial is planned.
    Dial {
        side: SideName,
    },
    /// A mark-down is planned.
    Down {
        side: SideName,
    },
    /// A socket is opened where a connect is due.
    Connect {
        side: SideName,
        now: u64,
    },
    /// One step of the record.
    Step {
        side: SideName,
        now: u64,
    },
    /// Its halves read, answer and are judged.
    Arrivals {
        side: SideName,
        now: u64,
    },
    /// All of these three, until nothing moves.
    Turn {
        side: SideName,
        now: u64,
    },
    /// At most so many bytes flow from the side.
    Flow {
        side: SideName,
        wire: u32,
        most: u64,
    },
    /// The side's end of the socket fails from now on.
    Fault {
        side: SideName,
        wire: u32,
    },
    /// These bytes come to the side's end of the socket, which the other side never wrote.
    Tell {
        side: SideName,
        wire: u32,
        bytes: Blob,
    },
}

/// An instruction, and the line on which it stands, from 1.
#[derive(Debug, Drop)]
pub struct Order {
    pub line: u32,
    pub what: Instruction,
}

/// Instructions in order.
pub type OrderList = Items<Order>;

/// A schedule. One with instructions has its pair.
#[derive(Debug, Drop)]
pub struct Schedule {
    pub pair: Option<PairFacts>,
    pub orders: OrderList,
}
