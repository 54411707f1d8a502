//! A center: an event thread of a node, as a value that takes turns.
//!
//! What it is: [`Center`], which holds the records of a thread, the halves on sockets of peers and the port. Maker:
//! [`Center::new`], of [`Unmade`]. [`Center::turn`] is one turn of all that it holds: it takes the stages of `m2_turn`
//! one after another, until memory runs out, and says whether anything came of it ([`CenterTurn`]).
//! [`Center::plan`] has a record do something by [`plan_at`], [`Center::parts`] lends what a record is,
//! [`Center::idle`] says whether nothing is to be done, and [`Center::poll`] waits for it. [`home`] says at which of a
//! node's threads a peer's record is. [`Center::is_center`], [`Center::comes_from_home`] and [`Center::is_in_memory`]
//! say what it keeps. [`Center::log`], [`Center::incoming`] and [`Center::hear`] are for whoever passes on what flows
//! in memory. The end: [`Center::finished`], which gives [`CenterRest`]. What it isn't: a thread. Who calls its turns
//! is the caller's.
#![tactic(auto)]

mod center;
mod counting;
mod finishing;
mod hearing;
mod homing;
mod keeping;
mod making;
mod memory;
mod planning;
mod plans;
mod reaching;
mod record_ends;
mod resting;
mod turning;
mod whole;

pub use center::{Center, NodeShared, Passes};
pub use finishing::{CenterRest, Cleared};
pub use hearing::{half_hears, half_log};
pub use homing::home;
pub use making::Unmade;
pub use planning::plan_at;
pub use turning::CenterTurn;
pub use whole::are_whole;
