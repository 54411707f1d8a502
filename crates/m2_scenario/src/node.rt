//! Nodes.

ghost use Rattle.std.specs.Prelude.{◌≡◌};
ghost use Rattle.m2_scenario.specs.Node.{plain_node};
ghost use Rattle.m2_scenario.specs.Valid.{HasCenters};

use crate::name::Name;
use m2_addr::Addr;
use m2_bytes::Items;
use m2_policy::FastSet;

/// The nodes of a scenario in the order of their lines.
pub type NodeList = Items<Node>;

/// A node.
#[derive(Debug, Drop)]
pub struct Node {
    pub name: Name,
    /// Ceph's number of the entity's type: MON 1, MDS 2, OSD 4, CLIENT 8, MGR 16.
    pub entity: u8,
    pub at: Addr,
    /// How many event centers it has in `run`, from 1 to [`MOST_CENTERS`](crate::MOST_CENTERS).
    pub centers: u32,
    /// The kinds of message that it dispatches at once.
    pub fast: FastSet,
    /// How many bytes of messages it may hold, or 0 for any number.
    pub throttle: u64,
    /// The feature bits that it supports; all of them where its line says nothing.
    pub supports: u64,
    /// The feature bits that it requires of its peers; none where its line says nothing.
    pub requires_: u64,
    /// Whether `run` starts it.
    pub started: bool,
}

impl Node {
    /// The node of a line that has no options.
    pub fn plain(name: Name, entity: u8, at: Addr) -> Node
        ensures value { result ≡ plain_node name entity at }
        ensures centers { HasCenters result }
    {
        Node {
            name,
            entity,
            at,
            centers: 1,
            fast: FastSet::empty(),
            throttle: 0,
            supports: u64::MAX,
            requires_: 0,
            started: true,
        }
    }
}
