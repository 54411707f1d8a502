//! What is promised of centers, and of a cluster, where ends are told of the other side. These functions do nothing:
//! each stands for the law that its contract names.

ghost use Rattle.m2_links_go_on.specs.ToldLaws as laws;

use m2_dispatch::Dispatcher;
use m2_fabric::End;

/// A center with the same rest has the same records and halves, but for what their ends were told.
pub fn told_center_is_same<D>()
    ensures { laws.ToldCenterIsSame D }
{}

/// Each socket has one end there still, where the sockets that wait at its port are to come.
pub fn told_stays_own<D>()
    ensures { laws.ToldStaysOwn D }
{}

/// And the half of each ask that was judged is there still.
pub fn told_stays_judged<D>()
    ensures { laws.ToldStaysJudged D }
{}

/// A socket that comes to a port leaves those that wait to come.
pub fn incoming_is_to_come()
    ensures { laws.IncomingIsToCome }
{}

/// And so does what one of them is told.
pub fn news_are_to_come()
    ensures { laws.NewsAreToCome }
{}

/// So where a socket comes to a center each socket has one end still.
pub fn incoming_stays_own<D>()
    ensures { laws.IncomingStaysOwn D }
{}

/// And where an end of it is told something.
pub fn hearing_stays_own<D>()
    ensures { laws.HearingStaysOwn D }
{}

/// A cluster with the same rest has the same nodes, but for what their ends were told and for the sockets that wait.
pub fn told_cluster_is_same<D>()
    ensures { laws.ToldClusterIsSame D }
{}

/// At each node each socket has one end still, and the ends that wait did nothing yet.
pub fn told_cluster_stays_own<D>()
    ensures { laws.ToldClusterStaysOwn D }
{}

/// And the half of each ask that was judged is there still.
pub fn told_cluster_stays_judged<D>()
    ensures { laws.ToldClusterStaysJudged D }
{}

/// Behind a turn of a center the ends that wait at its port did nothing yet, where they had done nothing before.
pub fn turn_stays_unused<D: Dispatcher, E: End>()
    ensures { laws.TurnStaysUnused D E }
{}

/// And so it is where one of its records plans a step.
pub fn plan_stays_unused<D>()
    ensures { laws.PlanStaysUnused D }
{}
