//! What is promised of two journals. These functions do nothing: each stands for the law that its
//! contract names.

ghost use Rattle.m2_never_reset.specs.PairLaws as laws;
ghost use Rattle.m2_never_reset.specs.Orders as orders;

use crate::{
    accepted_is_settled, answers_are_steps, cookies_are_mints, lossless_is_in_order,
    no_trouble_comes, runs_go_on,
};
use m2_journal::{events_are_lawful, replays_are_sound};
use m2_queues::{calls_go_on, each_number_is_a_place, each_priority_keeps_its_order};

/// A post of the plan is no step of the link.
pub fn posts_are_no_steps()
    ensures { laws.PostsAreNoSteps }
{}

/// A dial of the plan is none.
pub fn dials_are_no_steps()
    ensures { laws.DialsAreNoSteps }
{}

/// A socket that is opened is a step of the link.
pub fn opened_is_steps()
    ensures { laws.OpenedIsSteps }
{}

/// What is read is no step of the link, but where it completes the answer to an ask.
pub fn read_is_steps()
    ensures { laws.ReadIsSteps }
{}

/// What is put on a feed is no step of the link, but where it ends an acknowledgement.
pub fn wrote_is_steps()
    ensures { laws.WroteIsSteps }
{}

/// A feed that is closed is a step of the link; a spent socket that is closed is none.
pub fn closed_is_steps()
    ensures { laws.ClosedIsSteps }
{}

/// An ask that is sent is a step of the link.
pub fn asked_is_steps()
    ensures { laws.AskedIsSteps }
{}

/// A message that gets its number and is sent is two steps of the link.
pub fn numbered_is_steps()
    ensures { laws.NumberedIsSteps }
{
    each_number_is_a_place();
    calls_go_on();
}

/// A message that is accepted is steps of the link: what stands before it is passed over.
pub fn accepted_is_steps()
    ensures { laws.AcceptedIsSteps }
{}

/// An acknowledgement that is counted is a step of the link.
pub fn acked_is_steps()
    ensures { laws.AckedIsSteps }
{}

/// A reset that is obeyed is a step of the link.
pub fn obeyed_is_steps()
    ensures { laws.ObeyedIsSteps }
{}

/// An ask that is judged is steps of the link, by the answer of the tables.
pub fn judged_is_steps()
    ensures { laws.JudgedIsSteps }
{
    answers_are_steps();
}

/// The link between two sides is that between them the other way round, as the other side sees it.
pub fn links_turn()
    ensures { laws.LinksTurn }
{}

/// Each entry of either side, but where one is marked down, is steps of the link.
pub fn entries_of_either_are_steps()
    ensures { laws.EntriesOfEitherAreSteps }
{
    answers_are_steps();
    each_number_is_a_place();
    calls_go_on();
}

/// Before any entry nothing has happened on the link.
pub fn starts_are_new()
    ensures { laws.StartsAreNew }
{}

/// What the two sides have in common stays at each entry of either side.
pub fn paired_stays()
    ensures { laws.PairedStays }
{
    answers_are_steps();
}

/// Two journals in an order that fits are a run of the link between their sides.
pub fn histories_are_runs()
    ensures { orders.HistoriesAreRuns }
{
    events_are_lawful();
    replays_are_sound();
    entries_of_either_are_steps();
    starts_are_new();
    paired_stays();
    runs_go_on();
}

/// Between two lossless nodes no message is thrown away, and nothing that was accepted is numbered
/// anew.
pub fn no_trouble_in_histories()
    ensures { orders.NoTroubleInHistories }
{
    cookies_are_mints();
    no_trouble_comes();
    histories_are_runs();
}

/// Between two lossless nodes what either side has accepted is a prefix of what the other has numbered.
pub fn messages_come_in_order()
    ensures { orders.MessagesComeInOrder }
{
    cookies_are_mints();
    lossless_is_in_order();
    histories_are_runs();
}

/// Between two lossless nodes both sides keep the same two cookies from the first message on that
/// either has accepted.
pub fn accepted_cookies_are_settled()
    ensures { orders.AcceptedIsSettled }
{
    cookies_are_mints();
    accepted_is_settled();
    events_are_lawful();
    replays_are_sound();
    entries_of_either_are_steps();
    starts_are_new();
    paired_stays();
    runs_go_on();
    histories_are_runs();
}

/// Of every two journals of a lossless link without a mark-down, in every order that fits: nothing is
/// thrown away, no number is set back after an acceptance, and no full reset is obeyed; from the first
/// acceptance on both sides keep the same two cookies; messages come in order, each once, and of each
/// key as they were posted; and what is counted acknowledged was accepted.
pub fn lossless_is_never_reset()
    ensures { orders.LosslessIsNeverReset }
{
    events_are_lawful();
    replays_are_sound();
    entries_of_either_are_steps();
    starts_are_new();
    paired_stays();
    runs_go_on();
    cookies_are_mints();
    lossless_is_in_order();
    each_priority_keeps_its_order();
    no_trouble_in_histories();
    messages_come_in_order();
    accepted_cookies_are_settled();
}

/// There is a history of two lossless nodes in which a message comes over and is acknowledged.
pub fn a_message_comes_over()
    ensures { orders.AMessageComesOver }
{}
