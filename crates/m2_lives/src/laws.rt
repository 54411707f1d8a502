//! What is promised of lives. These functions do nothing: each stands for the law that its contract names.

ghost use Rattle.m2_lives.specs.Handing as handing;
ghost use Rattle.m2_lives.specs.InLives as link;
ghost use Rattle.m2_lives.specs.LifeAfterLife as report;
ghost use Rattle.m2_lives.specs.LifeForLife as record_lives;
ghost use Rattle.m2_lives.specs.LivesLaws as laws;
ghost use Rattle.m2_lives.specs.ObservedLaws as observed;
ghost use Rattle.m2_lives.specs.ObservedRun as observed_run;
ghost use Rattle.m2_lives.specs.OneLife as one_life;

use m2_channel::{a_message_is_observed, observed_is_a_run_to_a_mark};
use m2_dispatch::each_key_keeps_its_order;
use m2_journal::{events_are_lawful, replays_are_sound};
use m2_never_reset::{answers_are_steps, paired_stays, starts_are_new};
use m2_queues::{
    calls_go_on, each_number_is_a_place, each_priority_keeps_its_order,
    kept_messages_are_the_numbered,
};
use m2_session::cookies_tell_draws_apart;

/// Wherever a run of the channel leads, names tell lives apart, what a life accepted and what is
/// acknowledged of it lies within the one life of its name, and what is dispatched of it was accepted.
#[tactic(auto, using(crate::proofs::Runs::keep_lives))]
pub fn runs_keep_lives()
    ensures { laws.RunsKeepLives }
{}

/// Of the steps of a run: what they accept in a life is of each key the first ones of what the sending
/// life of its name holds, what they dispatch of it the first ones of that; all comes life after life,
/// and no reset without a mark before it.
#[tactic(auto, using(crate::proofs::Delivering::deliver_in_lives))]
pub fn runs_deliver_in_lives()
    ensures { laws.RunsDeliverInLives }
{}

/// But for acknowledgements, what is observed with lives is what is observed without them.
#[tactic(auto, using(crate::proofs::Same::show_the_same))]
pub fn lives_show_the_same()
    ensures { observed.LivesShowTheSame }
{}

/// Of any order and logs: the observed lives are named as those of the two records, and what is posted and
/// dispatched is what the near side has posted and what the far side's logs tell.
pub fn lives_are_named()
    ensures { observed.LivesAreNamed }
{}

/// Two lawful journals in an order throughout which bytes fit are in an order that fits, with
/// mark-downs by either side.
pub fn bytes_give_lives()
    ensures { observed.BytesGiveLives }
{
    events_are_lawful();
    replays_are_sound();
    paired_stays();
    starts_are_new();
}

/// Of every two lawful journals of a lossless link in an order that fits, with mark-downs by either side:
/// what a side has accepted in a life is the first ones of what the other has numbered in its one life of
/// that name, in order, each once; where there is none, it is nothing.
pub fn each_life_accepts_from_one()
    ensures { observed.EachLifeAcceptsFromOne }
{
    events_are_lawful();
    replays_are_sound();
    paired_stays();
    starts_are_new();
    answers_are_steps();
    each_number_is_a_place();
    calls_go_on();
    cookies_tell_draws_apart();
}

/// What an entry acknowledges, the other side had accepted by then in its life of the same name.
pub fn acknowledged_is_accepted_in_its_life()
    ensures { observed.AcknowledgedIsAcceptedInItsLife }
{
    events_are_lawful();
    replays_are_sound();
    paired_stays();
    starts_are_new();
    answers_are_steps();
    each_number_is_a_place();
    calls_go_on();
    cookies_tell_draws_apart();
}

/// Of every two lawful journals of a lossless link in an order that fits, with mark-downs by either side:
/// what is observed in either direction is a run of the channel with lives.
pub fn observed_is_a_run_of_lives()
    ensures { observed_run.ObservedIsARunOfLives }
{
    events_are_lawful();
    replays_are_sound();
    paired_stays();
    starts_are_new();
    answers_are_steps();
    each_number_is_a_place();
    calls_go_on();
    cookies_tell_draws_apart();
    kept_messages_are_the_numbered();
    each_priority_keeps_its_order();
    observed_is_a_run_to_a_mark();
}

/// Where a record's messages of fast keys go to a dispatcher at once, and all else goes into the queue
/// before another, each once and in order, the logs of both together are of each key one piece of each
/// stretch of what the record handed on, between two of which what waited was thrown away: each the first
/// ones of it, in order, each once.
pub fn logs_are_in_lives()
    ensures { handing.LogsAreInLives }
{
    each_key_keeps_its_order();
}

/// Of every two lawful journals of a lossless link in an order that fits, with mark-downs by either side:
/// of each key, what a side's dispatchers are called with comes life after life, of each life the first
/// ones of what the other side's life of that name holds, in order, each once. That starts with the first
/// post that isn't acknowledged in the life before, or behind all where they are thrown away.
pub fn heard_life_after_life()
    ensures { report.LifeAfterLife }
{
    each_life_accepts_from_one();
    observed_is_a_run_of_lives();
}

/// Of every lawful journal, of any policy and any peer: of each key, what dispatchers are called with is
/// one piece of each life of the record, in order, each the first ones of what was accepted in it.
pub fn dispatched_life_for_life()
    ensures { record_lives.DispatchedLifeForLife }
{}

/// In every order of a lossless link in which each byte was written before it is read at the other end,
/// with mark-downs by either side: each life accepts from the one of its name, what is counted as
/// acknowledged was accepted in its life, what is observed is a run of the channel with lives, and what is
/// heard comes life after life.
pub fn bytes_come_in_lives()
    ensures { link.BytesComeInLives }
{
    bytes_give_lives();
    each_life_accepts_from_one();
    acknowledged_is_accepted_in_its_life();
    observed_is_a_run_of_lives();
    heard_life_after_life();
}

/// There is a history in which a message is accepted and dispatched in a life, behind which that side is
/// marked down.
pub fn a_message_is_heard_in_a_life()
    ensures { one_life.AMessageIsHeardInALife }
{
    a_message_is_observed();
    each_life_accepts_from_one();
    heard_life_after_life();
}
