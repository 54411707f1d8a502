//! All nodes of a cluster in memory.
//!
//! What it is: [`Cluster`], the nodes in order, each a [`Node`] with its center and what its threads share. It is
//! the holder of all ends for whoever passes on what flows between the nodes (`m2_fabric`). It passes on what crates
//! above name of a center ([`Center`], [`Unmade`], [`Passes`], [`NodeShared`], [`CenterTurn`], [`CenterRest`], [`home`]). What it
//! isn't: what flows between nodes, or a script of turns.
#![tactic(auto)]

mod cluster;
mod holding;
mod node;

pub use cluster::Cluster;
pub use m2_center::{Center, CenterRest, CenterTurn, NodeShared, Passes, Unmade, home};
pub use node::Node;
