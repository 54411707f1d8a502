//! What every port and every fabric keeps, whatever its sockets are.
//!
//! What it is: [`PortBook`], what a port tells: its address, the sockets that it made with their turns, and
//! its counts; and [`Nodes`], the nodes of a fabric: where each listens, how many of its ports are out, and
//! its [`GatheredNode`], the ports and ends that came back. What it isn't: sockets. Who opens them and
//! moves their bytes is the crate above.
#![tactic(auto)]

mod book;
mod made;
mod nodes;

pub use book::PortBook;
pub use made::{FourNumbers, MadeSockets};
pub use nodes::{GatheredNode, NOWHERE, Nodes};
