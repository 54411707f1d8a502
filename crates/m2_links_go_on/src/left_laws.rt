//! What is promised of what is left of nodes. These functions do nothing: each stands for the law that its contract
//! names.

ghost use Rattle.m2_links_go_on.specs.LeftLaws as laws;

/// Two records that are towards each other are a link to be woven, with the halves that no record took of all nodes.
pub fn left_are_of_link()
    ensures { laws.LeftAreOfLink }
{}

/// Two records that are towards each other are joined where their strands have an order.
pub fn woven_nodes_are_joined()
    ensures { laws.WovenNodesAreJoined }
{}

/// Each ask that a center's records have judged came of the record's peer, and what its half had got by then its end
/// has got still.
pub fn coming_stays()
    ensures { laws.ComingStays }
{}

/// A center that is the only one of its node leaves a left node.
pub fn centers_leave()
    ensures { laws.CentersLeave }
{}
