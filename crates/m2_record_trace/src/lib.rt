//! Two records of a pair, driven over ends in memory, by whoever calls or by a schedule, and what they came to as text.
//!
//! What it is: [`Side`], a record with what its node has for it (a counter of global numbers and a throttle, both
//! alone), the sockets of the peer that it has accepted and not taken, and the logs of what it handed out; and
//! [`Pair`], two sides with the sockets between them, of which whoever drives says how much flows and what breaks. What
//! a record's calls ask of their caller is kept by the type of a side, or looked at as the call comes, so no call of a
//! pair has a condition but the two makers. [`RecordTrace`] is the program `record_trace`: of a schedule it
//! makes what two records that are driven by it planned, did and handed on, and where they stand, one item a line, so
//! that an independent replay can be laid beside it. docs/PROTOCOL.md describes both forms.
//!
//! What it isn't: a thread, a clock or a network. Each moment is given, and nothing flows by itself.
#![tactic(auto)]

mod arriving;
mod complaint;
mod connecting;
mod dispatching;
mod driving;
mod judging;
mod pair;
mod program;
mod side;
mod sides;
mod step;
mod text;
mod tracing;
mod which;
mod wire;

pub use pair::Pair;
pub use program::RecordTrace;
pub use side::Side;
pub use step::{Connecting, SideStep};
pub use text::put_trace;
pub use tracing::{Untraced, trace};
pub use which::Which;
pub use wire::Wire;
