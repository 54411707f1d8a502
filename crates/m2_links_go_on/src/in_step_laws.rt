//! What is promised of ends in memory where nodes act. This function does nothing: it stands for the law that its contract names.

ghost use Rattle.m2_links_go_on.specs.InStep as laws;

use m2_growth::{
    arrivals_are_the_openers, calls_keep_ends, faults_stay_met, flows_stay_met, meetings_stay_met,
    turns_keep_ends, turns_stay_in_step, turns_stay_met,
};

/// Whatever nodes in memory do, and whatever passes between them, the two ends of each socket are in step.
pub fn ends_stay_in_step()
    ensures { laws.EndsStayInStep }
{
    turns_stay_in_step();
    turns_stay_met();
    turns_keep_ends();
    meetings_stay_met();
    flows_stay_met();
    faults_stay_met();
    calls_keep_ends();
    arrivals_are_the_openers();
}
