//! What is promised of a script's run. These functions do nothing: each stands for the law that its contract names.

ghost use Rattle.m2_promise.specs.KeepingLaws as laws;

use crate::{
    clusters_hold_all, deeds_keep_nodes, hearing_stays_at, one_plan_acts, one_turn_acts,
    plans_go_on_further, rest_stays, told_nodes_hear,
};
use m2_dispatch::Dispatcher;
use m2_fabric::End;
use m2_links_go_on::{
    plan_stays_unused, told_cluster_stays_judged, told_cluster_stays_own, turn_stays_unused,
};
use m2_script::scripts_are_within;

/// Behind a deed a run keeps what it kept: it is at rest, where a node acts as where something passes; and so is each
/// node.
pub fn deeds_stay_kept<D: Dispatcher, E: End>()
    ensures { laws.DeedsStayKept D E }
{
    rest_stays();
    one_turn_acts::<D, E>();
    one_plan_acts::<D>();
    turn_stays_unused::<D, E>();
    plan_stays_unused::<D>();
    clusters_hold_all::<D>();
    told_nodes_hear::<D>();
    told_cluster_stays_own::<D>();
    told_cluster_stays_judged::<D>();
    hearing_stays_at();
    deeds_keep_nodes::<D, E>();
}

/// A deed of its nodes and links can be done: where a link joins two nodes there is a record.
pub fn kept_can_be_done<D>()
    ensures { laws.KeptCanBeDone D }
{}

/// So all lines of a valid scenario can be done.
pub fn scripts_can_be_done<D: Dispatcher, E: End>()
    ensures { laws.ScriptsCanBeDone D E }
{
    deeds_stay_kept::<D, E>();
    kept_can_be_done::<D>();
    scripts_are_within();
}

/// And behind them a run keeps what it kept, and the plan of each record goes on by what the lines plan for it.
pub fn scripts_stay_kept<D: Dispatcher, E: End>()
    ensures { laws.ScriptsStayKept D E }
{
    deeds_stay_kept::<D, E>();
    deeds_keep_nodes::<D, E>();
    plans_go_on_further::<D>();
}
