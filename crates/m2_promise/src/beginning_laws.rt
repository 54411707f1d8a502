//! What is promised of runs of nodes in memory before their first deed, and where one node acts. These functions do
//! nothing: each stands for the law that its contract names.

ghost use Rattle.m2_promise.specs.BeginningLaws as laws;

use m2_dispatch::Dispatcher;
use m2_fabric::End;

/// What holds always of a run holds before its first deed.
pub fn beginnings_run()
    ensures { laws.BeginningsRun }
{}

/// And all that was done on each link, which is nothing, has an order.
pub fn beginnings_have_orders()
    ensures { laws.BeginningsHaveOrders }
{}

/// A new record has done nothing.
pub fn new_records_are_unused()
    ensures { laws.NewRecordsAreUnused }
{}

/// A center that is made over a new port has done nothing.
pub fn new_centers_are_new<D>()
    ensures { laws.NewCentersAreNew D }
{}

/// Nodes of such centers are a run before its first deed.
pub fn new_clusters_begin<D>()
    ensures { laws.NewClustersBegin D }
{}

/// A cluster, as the holder of all ends, has the ends that its nodes hold.
pub fn clusters_hold_all<D>()
    ensures { laws.ClustersHoldAll D }
{}

/// Where one node of a cluster takes a turn, one node of the run acts.
pub fn one_turn_acts<D: Dispatcher, E: End>()
    ensures { laws.OneTurnActs D E }
{}

/// And so it does where one plans a step.
pub fn one_plan_acts<D>()
    ensures { laws.OnePlanActs D }
{}
