//! Links.

use m2_bytes::Items;
use m2_policy::Policy;

/// The links of a scenario in the order of their lines.
pub type LinkList = Items<Link>;

/// A link of two nodes, by their places among the nodes from 0, with each one's policy towards
/// the other.
#[derive(Clone, Copy, Debug, PartialEq, Eq)]
pub struct Link {
    pub a: u32,
    pub b: u32,
    pub of_a: Policy,
    pub of_b: Policy,
}
