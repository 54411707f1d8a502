//! What is promised of a run of nodes in memory. These functions do nothing: each stands for the law that its
//! contract names.

ghost use Rattle.m2_promise.specs.RunLaws as laws;

use m2_links_go_on::{ends_stay_in_step, links_are_woven, links_go_on, staying_goes_on};

/// Where a node acts, what holds always holds still: each ask that was judged came of the record's peer, since what
/// a half reads on a socket that a record has opened is that record's.
pub fn acting_keeps_running()
    ensures { laws.ActingKeepsRunning }
{
    ends_stay_in_step();
}

/// And where all that was done on each link had an order, it has one behind it: what was got had been put.
pub fn acting_keeps_orders()
    ensures { laws.ActingKeepsOrders }
{
    acting_keeps_running();
    staying_goes_on();
    links_go_on();
    links_are_woven();
}

/// There are nodes of which all that holds, with a link between them, and one that acts.
pub fn a_node_acts()
    ensures { laws.ANodeActs }
{}
