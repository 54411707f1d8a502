//! The lines of a scenario that are no nodes and links.

use m2_bytes::Items;
use m2_message::Message;

/// The lines of a scenario in the order of the text.
pub type LineList = Items<Line>;

/// A line; a and b are places among the nodes, from 0.
#[derive(Debug, Drop)]
pub enum Line {
    /// A posts the message to B.
    Post {
        a: u32,
        b: u32,
        message: Message,
    },
    /// A's record connects though it has nothing to write.
    Dial {
        a: u32,
        b: u32,
    },
    /// A marks its record to B down.
    Down {
        a: u32,
        b: u32,
    },
    /// The k-th such line for A and B cuts the k-th socket that A opens to B after so many bytes.
    Cut {
        a: u32,
        b: u32,
        bytes: u64,
    },
    /// One center turn of A.
    Turn {
        a: u32,
    },
    /// Bytes that A's side wrote become readable at B: of all sockets where `socket` is 0.
    Flow {
        a: u32,
        b: u32,
        socket: u32,
        most: u64,
    },
    /// A's end fails from now on: of the newest socket where `socket` is 0.
    Fault {
        a: u32,
        b: u32,
        socket: u32,
    },
    /// So many rounds in which everything flows and every node takes a turn.
    Settle {
        rounds: u32,
    },
}
