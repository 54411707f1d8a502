//! What is promised of the nodes of a script's run. These functions do nothing: each stands for the law that its
//! contract names.

ghost use Rattle.m2_promise.specs.PlanLaws as laws;

use m2_dispatch::Dispatcher;
use m2_fabric::End;

/// Behind a deed each node is kept still, and the plan of each record goes on by what the deed plans for it.
pub fn deeds_keep_nodes<D: Dispatcher, E: End>()
    ensures { laws.DeedsKeepNodes D E }
{}

/// Plans go on by no deeds as they are, and by deeds one after another.
pub fn plans_go_on_further<D>()
    ensures { laws.PlansGoOnFurther D }
{}
