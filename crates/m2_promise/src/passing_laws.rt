//! What is promised of a run of nodes in memory where something passes between them. These functions do nothing: each
//! stands for the law that its contract names.

ghost use Rattle.m2_promise.specs.PassingLaws as laws;

use crate::{acting_keeps_orders, acting_keeps_running};
use m2_links_go_on::{ends_stay_in_step, told_cluster_is_same, woven_stays};

/// Nodes of a cluster with the same rest hold the same, but for what their ends were told.
pub fn told_nodes_hear<D>()
    ensures { laws.ToldNodesHear D }
{
    told_cluster_is_same::<D>();
}

/// And each is a node at its place still.
pub fn hearing_stays_at()
    ensures { laws.HearingStaysAt }
{}

/// Where nothing is told all is the same.
pub fn nothing_is_heard()
    ensures { laws.NothingIsHeard }
{}

/// What ends are told changes nothing of what is woven of a link, so each link has an order still.
pub fn hearing_keeps_orders()
    ensures { laws.HearingKeepsOrders }
{
    woven_stays();
}

/// Behind a meeting of a node what holds always holds still: an end comes only of a socket that is kept from then on,
/// between the node that opened it and the one at which it arrives.
pub fn meeting_keeps_running()
    ensures { laws.MeetingKeepsRunning }
{
    ends_stay_in_step();
}

/// So it does behind a flow.
pub fn flow_keeps_running()
    ensures { laws.FlowKeepsRunning }
{
    ends_stay_in_step();
}

/// So it does behind a fault.
pub fn fault_keeps_running()
    ensures { laws.FaultKeepsRunning }
{
    ends_stay_in_step();
}

/// So a run stays at rest behind each of its deeds, where each link has its order.
pub fn rest_stays()
    ensures { laws.RestStays }
{
    acting_keeps_running();
    acting_keeps_orders();
    meeting_keeps_running();
    flow_keeps_running();
    fault_keeps_running();
    hearing_keeps_orders();
    ends_stay_in_step();
}
