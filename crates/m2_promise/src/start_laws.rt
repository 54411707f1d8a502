//! What is promised of a scenario's run from its beginning. These functions do nothing: each stands for the law that
//! its contract names.

ghost use Rattle.m2_promise.specs.StartLaws as laws;

use crate::{
    beginnings_have_orders, beginnings_run, deeds_stay_kept, new_centers_are_new,
    new_clusters_begin, scripts_can_be_done, scripts_stay_kept,
};
use m2_dispatch::LogDispatcher;
use m2_fabric::Port;
use m2_links_go_on::begin_logged;

/// The nodes of a valid scenario before its first line keep all that a script's run keeps.
pub fn first_is_kept()
    ensures { laws.FirstIsKept }
{
    beginnings_run();
    beginnings_have_orders();
    new_centers_are_new::<LogDispatcher>();
    new_clusters_begin::<LogDispatcher>();
    begin_logged::<LogDispatcher>();
}

/// So all its lines can be done.
pub fn first_can_be_done<P: Port>()
    ensures { laws.FirstCanBeDone P.End }
{
    first_is_kept();
    scripts_can_be_done::<LogDispatcher, P::End>();
}

/// Behind each of their deeds each socket has one end at most at each node.
pub fn first_stays_apart<P: Port>()
    ensures { laws.FirstStaysApart P.End }
{
    first_is_kept();
    deeds_stay_kept::<LogDispatcher, P::End>();
}

/// And where the last of them leads the run keeps all this still, and each plan is what the lines planned.
pub fn script_run_is_kept<P: Port>()
    ensures { laws.ScriptRunIsKept P.End }
{
    first_is_kept();
    scripts_stay_kept::<LogDispatcher, P::End>();
}
