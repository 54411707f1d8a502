//! What is promised of the nodes of a cluster. These functions do nothing: each stands for the law that its contract
//! names.

ghost use Rattle.m2_links_go_on.specs.ClusterLaws as laws;

use m2_dispatch::Dispatcher;
use m2_fabric::End;

/// Behind a turn of a center nothing that was done is undone, and each socket has one end still, also where memory ran
/// out.
pub fn turn_grows<D: Dispatcher, E: End>()
    ensures { laws.TurnGrows D E }
{}

/// Nor is it where one of its records plans a step and takes it.
pub fn plan_grows<D>()
    ensures { laws.PlanGrows D }
{}

/// Behind a turn of a center only sockets that go elsewhere have an end and had none.
pub fn turn_brings_elsewhere<D: Dispatcher, E: End>()
    ensures { laws.TurnBringsElsewhere D E }
{}

/// Where one of its records plans a step it is so too.
pub fn plan_brings_elsewhere<D>()
    ensures { laws.PlanBringsElsewhere D }
{}

/// Where one node of a cluster takes a turn, all ends of the cluster grow.
pub fn node_turn_grows<D: Dispatcher, E: End>()
    ensures { laws.NodeTurnGrows D E }
{}

/// And so they do where one plans a step.
pub fn node_plan_grows<D>()
    ensures { laws.NodePlanGrows D }
{}
