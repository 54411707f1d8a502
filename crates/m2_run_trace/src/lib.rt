//! The trace of a run of a scenario: its script as it is played, and under each line what the nodes did.
//!
//! What it is: [`RunTrace`], the program `run_trace`: of a scenario, whose lines are played one by one over nodes in
//! memory (`m2_script`), it makes what was done by it (docs/SCENARIOS.md, "The trace of a run").
//! `specs/Acts.antt` says what a trace is: acts, each with what is printed before it, its deeds, and the node of which
//! is told what it did by them. A law says that the run of a trace is one of the scenario's lines. [`put_news`] appends
//! what a node did since it was marked: [`Marks`] says where it stood then. It tells of sockets on which it may still
//! have a half, and [`sockets_left`] says which these are afterwards. The lines of the script that no text has are
//! [`put_turn`] and [`put_settle`]. Each of these appends its lines; on Err, for want of memory, some of them may have
//! been appended. What it isn't: the run (`m2_script`), the words of an entry (`m2_trace`), the line of a dispatch
//! (`m2_scenario`), or the picture (`tools/draw`).
#![tactic(auto)]

mod cause;
mod complaint;
mod dials;
mod dispatches;
mod ends;
mod entries;
mod laws;
mod lists;
mod marks;
mod news;
mod playing;
mod program;
mod script;
mod sockets;
mod stage;
mod standing;
mod telling;
mod throttle;
mod tracing;
mod words;

pub use laws::{marks_are_of_journals, traces_are_of_runs};
pub use marks::{EndMark, Marks};
pub use news::put_news;
pub use program::RunTrace;
pub use sockets::sockets_left;
pub use tracing::{Untraced, trace};
pub use words::{put_settle, put_turn};
