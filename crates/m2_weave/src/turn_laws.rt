//! What is promised of turns. These functions do nothing: each stands for the law that its contract names.

ghost use Rattle.m2_weave.specs.TurnLaws as laws;

use crate::{rule_decides, tidy_stops_are_reads};

/// Where strands have an order before a turn, they have one behind it.
pub fn turns_are_woven()
    ensures { laws.TurnsAreWoven }
{
    rule_decides();
    tidy_stops_are_reads();
}

/// Where all that ends have got behind a turn was put by the other ends before it, and strands tell of all that
/// ends have put, what is read in the turn had been written before it.
pub fn flowed_was_written()
    ensures { laws.FlowedWasWritten }
{}

/// So strands to which everything has happened in turns have an order.
pub fn runs_are_woven()
    ensures { laws.RunsAreWoven }
{
    turns_are_woven();
}

/// There is a turn in which something is read.
pub fn a_turn_is_read_in()
    ensures { laws.ATurnIsReadIn }
{}
