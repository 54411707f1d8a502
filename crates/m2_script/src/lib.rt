//! A scenario's lines over a cluster in memory, from its nodes before the first line to what is told when the last is
//! done.
//!
//! What it is: [`cluster_of`] makes the nodes of a scenario, each with its center, its [`records`], its throttles, its
//! dispatchers that log and its port in memory, whose sockets break where [`cuts_of`] says; [`addresses`] gives where
//! they listen, for what flows between them, and [`clear_all`] throws nodes away. [`Run`] is such nodes and what flows
//! between them (`m2_fabric`), which the lines have do deeds, one after another. [`outcome_of`] ends all nodes of a run
//! and gives an [`Outcome`]: for each node what its dispatchers were called with, turn by turn, and how many posts are
//! left over the lossless links of which neither end was marked down. Whoever has nodes with several centers counts that by
//! [`is_down_towards`], [`posts_towards`], [`messages_of`] and [`sum`]. It passes on what crates above name of nodes
//! ([`Cluster`], [`Center`], [`Record`], [`Due`], [`Unmade`], [`Passes`], [`NodeShared`], [`CenterTurn`], [`CenterRest`],
//! [`home`]). What it isn't: a scenario's text (`m2_scenario_text`) or its report (`m2_scenario`).
//!
//! `specs/Script.antt` says which deeds a line is and what each does, `specs/Nodes.antt` what the nodes are before the
//! first line, `specs/Started.antt` what a run is, and `specs/Outcome.antt` what is told at the end.
#![tactic(auto)]

mod calls;
mod cluster;
mod cuts;
mod ending;
mod laws;
mod left;
mod lines;
mod listening;
mod made;
mod node;
mod outcome;
mod ranges;
mod turns;
mod ways;

pub use calls::{TurnCalls, TurnCallsList};
pub use cluster::{MemoryCluster, clear_all, cluster_of};
pub use cuts::cuts_of;
pub use laws::{new_records_can_begin, scripts_are_within, short_posts_are_sendable};
pub use left::messages_of;
pub use lines::Run;
pub use listening::addresses;
pub use m2_cluster::{Center, CenterRest, CenterTurn, Cluster, NodeShared, Passes, Unmade, home};
pub use m2_record::{Due, Record};
pub use made::{Towards, other_of, record_over, records};
pub use node::MemoryNode;
pub use outcome::{Outcome, outcome_of};
pub use ways::{is_down_towards, posts_towards, sum};
