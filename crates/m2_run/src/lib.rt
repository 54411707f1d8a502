//! The nodes of a scenario on threads, over real sockets: one call.
//!
//! What it is: [`run`] makes the nodes of a valid scenario over the ports of a [`Fabric`](m2_fabric::Fabric), each with
//! as many event threads as the scenario says and a thread of its dispatcher, which they feed by mails (`m2_node`), and
//! runs them until every post of the lossless links that stay up was dispatched, or until all is still; then it weaves
//! the two sides of each link, by which the promise that a lossless session is never reset is kept and not assumed,
//! gives all ports and ends back, and tells an [`Outcome`] or a [`RunFault`]. An [`Observer`] sees what is left of the
//! nodes before their links are woven, once. `specs/Kept.antt` says what is kept of a run and what makes it one of a
//! scenario, of this fabric and of this clock, `specs/Still.antt` when it is still, and `specs/Ran.antt` what each
//! answer says. By `specs/Joined.antt` each link of a run that has finished is one as weaving asks for: between
//! lossless nodes nothing was reset before the first mark-down, and of each key what was dispatched is the first of
//! what was posted. [`lines_post_of_types`] says what that asks of lines and every list of lines keeps. The promise in
//! the words of the lines is made of it above (`m2_promise`, `m2_cli`).
//!
//! What it isn't: a promise that the call returns, or that threads run beside one another.
#![tactic(auto)]

mod beginning;
mod cuts;
mod ending;
mod gathering;
mod inboxes;
mod laws;
mod left;
mod lines;
mod listening;
mod observing;
mod once;
mod outcome;
mod ranges;
mod resting;
mod running;
mod settling;
mod still;
mod weaving;

pub use ending::{Ended, EndedCenter, ThreadEnd};
pub use laws::{
    kept_links_are_joined, lossy_links_come_in_order, runs_are_joined, runs_are_never_reset,
};
pub use lines::lines_post_of_types;
pub use observing::{Observer, Unobserved};
pub use outcome::{Outcome, RunFault};
pub use running::run;
