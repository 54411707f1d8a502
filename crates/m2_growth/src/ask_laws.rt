//! Whose asks come on a socket that a record has opened. These functions do nothing: each stands for the law
//! that its contract names.

ghost use Rattle.m2_growth.specs.AskLaws as laws;

/// A half that has read what a record put on a socket that it opened comes to asks under the record's own
/// main address alone, whatever replies it was given. What the record's node says of itself and the address
/// that it dials keep the ranges of their types. Any record: lossy or not, marked down or not, and whatever
/// numbers stand in its frames.
pub fn asks_are_the_openers()
    ensures { laws.AsksAreTheOpeners }
{}

/// The ask that such a half hands on to be judged is under that address.
pub fn arrivals_are_the_openers()
    ensures { laws.ArrivalsAreTheOpeners }
{}

/// Whoever asks there by such a half is that record.
pub fn askers_are_the_openers()
    ensures { laws.AskersAreTheOpeners }
{}
