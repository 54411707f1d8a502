//! What is promised of two sides in turns. These functions do nothing: each stands for the law that its
//! contract names.

ghost use Rattle.m2_links_go_on.specs.TurnLaws as laws;

use m2_history::strands_are_tidy;
use m2_weave::{flowed_was_written, turns_are_woven};

/// Where two records go on, so do the sides that they keep: what a record has read or written on a socket it
/// had opened or taken, so it doesn't open that later, and the half that it took there does nothing more.
pub fn records_go_on()
    ensures { laws.RecordsAreSidesThatGoOn }
{}

/// A record's journal, with the halves that it took, tells of all bytes that its ends have got and put.
pub fn records_tell_all()
    ensures { laws.RecordsTellAll }
{}

/// Where two sides and the loose halves beside them tell so, strands have written all that was put, and ends
/// have got all that was read.
pub fn told_is_moved()
    ensures { laws.ToldIsMoved }
{}

/// Where journals and halves go on, their strands are later ones.
pub fn sides_are_later()
    ensures { laws.SidesAreLater }
{}

/// Where two sides have an order of all that they did before a turn, they have one behind it.
pub fn sides_in_turns_are_woven()
    ensures { laws.SidesInTurnsAreWoven }
{
    sides_are_later();
    strands_are_tidy();
    flowed_was_written();
    turns_are_woven();
}

/// The halves that kept sides have taken, and whole ones beside them, are on their sockets, and their asks were
/// judged behind entries that are there.
pub fn kept_are_halves()
    ensures { laws.KeptAreHalves }
{}

/// So where two records with the halves beside them have an order of all that they did before a turn, they have
/// one behind it.
pub fn records_in_turns_are_woven()
    ensures { laws.RecordsInTurnsAreWoven }
{
    records_go_on();
    told_is_moved();
    sides_in_turns_are_woven();
}

/// Of two sides that have an order weaving finds no byte that doesn't fit.
pub fn an_order_is_found()
    ensures { laws.AnOrderIsFound }
{}
