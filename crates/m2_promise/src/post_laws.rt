//! What is promised of a script's run. These functions do nothing: each stands for the law that its contract names.

ghost use Rattle.m2_promise.specs.PostLaws as laws;

use crate::{links_have_orders, runs_have_links, script_run_is_kept};
use m2_channel::{acknowledged_is_accepted, logs_are_logs_of_what_is_handed_on, observed_is_a_run};
use m2_dispatch::Dispatcher;
use m2_fabric::{End, Port};
use m2_links_go_on::links_are_woven_so;
use m2_lives::{bytes_come_in_lives, logs_are_in_lives, trails_tell_each_point};

/// Deeds note the turns in which a node's dispatchers are called, so where all calls were noted before them they are
/// behind them.
pub fn deeds_note_calls<D: Dispatcher, E: End>()
    ensures { laws.DeedsNoteCalls D E }
{}

/// So all calls that dispatchers had in a script's run were noted, turn by turn.
pub fn calls_are_noted<P: Port>()
    ensures { laws.CallsAreNoted P.End }
{}

/// Where a run of a valid scenario's nodes has ended, whatever drove it, the promise is kept: over each link that is up,
/// of each key what either node heard from the other is a prefix of what the other's lines post to it, in order, each
/// once, and all of it where nothing is left; and over each lossless link, whether marked down or not, it comes life after
/// life.
pub fn ends_are_promised()
    ensures { laws.EndsArePromised }
{
    links_are_woven_so();
    trails_tell_each_point();
    observed_is_a_run();
    acknowledged_is_accepted();
    logs_are_logs_of_what_is_handed_on();
    logs_are_in_lives();
    bytes_come_in_lives();
}

/// So it is where a run keeps what holds between any two deeds, each record's plan is what the lines of a valid scenario
/// planned for it, and all calls were noted.
pub fn kept_is_promised()
    ensures { laws.KeptIsPromised }
{
    runs_have_links();
    links_have_orders();
    ends_are_promised();
}

/// So wherever the lines of a valid scenario lead, the promise is kept.
pub fn promises_are_kept<P: Port>()
    ensures { laws.PromisesAreKept P.End }
{
    kept_is_promised();
    calls_are_noted::<P>();
    script_run_is_kept::<P>();
}
