//! A scenario.

use crate::line::LineList;
use crate::link::LinkList;
use crate::node::NodeList;

/// A scenario: what stands where, what is joined, what happens, and for `run` the milliseconds of
/// real time that it may take.
///
/// It is valid where it keeps the limits on sizes, its nodes differ in name and in ip and port,
/// each link joins two different nodes by an allowed pair of policies and no two join the same,
/// and every line but `turn` and `settle` has a link of its two nodes.
#[derive(Debug, Drop)]
pub struct Scenario {
    pub nodes: NodeList,
    pub links: LinkList,
    pub lines: LineList,
    pub limit: u64,
}
