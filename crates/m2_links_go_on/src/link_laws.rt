//! What is promised of a link between two nodes that act in turns. These functions do nothing: each stands for the
//! law that its contract names.

ghost use Rattle.m2_links_go_on.specs.LinkLaws as laws;

use crate::records_in_turns_are_woven;

/// Where two nodes go on, so do the two records of their link and the halves beside them: of what they did nothing
/// is undone, a half that was taken the record of the link has, and what ends have got and put goes on.
pub fn links_go_on()
    ensures { laws.LinksGoOn }
{}

/// A node that stays as it is goes on.
pub fn staying_goes_on()
    ensures { laws.StayingGoesOn }
{}

/// So where all that was done on the link had an order before a turn, it has one behind it.
pub fn links_are_woven()
    ensures { laws.LinksAreWoven }
{
    links_go_on();
    records_in_turns_are_woven();
}

/// There are two nodes with a link that goes on.
pub fn a_link_goes_on()
    ensures { laws.ALinkGoesOn }
{}
