//! What is promised of the ordered channel, and of what two journals show of it. These functions do
//! nothing: each stands for the law that its contract names.

ghost use Rattle.m2_channel.specs.ChannelLaws as laws;
ghost use Rattle.m2_channel.specs.Handing as handing;
ghost use Rattle.m2_channel.specs.Lossy as lossy;
ghost use Rattle.m2_channel.specs.ObservedLaws as observed;

use m2_dispatch::each_key_keeps_its_order;
use m2_journal::replays_are_sound;
use m2_never_reset::{a_message_comes_over, lossless_is_never_reset};

/// Wherever a run of the channel leads, of each key what is dispatched is the first ones of what is
/// accepted, and that of what is posted, in order, each once; and what is acknowledged was accepted.
#[tactic(auto, using(crate::proofs::Runs::keep_order))]
pub fn runs_keep_order()
    ensures { laws.RunsKeepOrder }
{}

/// Of the steps of a run before its first mark: of each key what they dispatch is the first ones of
/// what they post, in order, each once; what one acknowledges was accepted before it; none is a reset.
#[tactic(auto, using(crate::proofs::Runs::deliver))]
pub fn runs_deliver()
    ensures { laws.RunsDeliver }
{}

/// So a run without a mark has no reset, and all of it is delivered like that.
#[tactic(auto, using(crate::proofs::Runs::unmarked_deliver))]
pub fn unmarked_runs_deliver()
    ensures { laws.UnmarkedRunsDeliver }
{}

/// No more is dispatched than was posted; where it is as many, everything was dispatched.
#[tactic(auto, using(crate::proofs::Counts::done_is_all))]
pub fn done_is_all_dispatched()
    ensures { laws.DoneIsAllDispatched }
{}

/// Of every two journals of a lossless link without a mark-down, in every order of their entries that
/// fits: what is observed in either direction is a run of the channel without a reset; so of each key
/// what is dispatched is the first ones of what was posted, in order, each once; what is acknowledged was
/// accepted; and where as many are dispatched as were posted, all are.
pub fn observed_is_a_run()
    ensures { observed.ObservedIsARun }
{
    lossless_is_never_reset();
}

/// A reset is observed exactly where an entry throws messages away, sets numbers back after an
/// acceptance, or obeys a full reset.
#[tactic(auto, using(crate::proofs::Resets::resets_are))]
pub fn resets_are_observed()
    ensures { observed.ResetsAreObserved }
{}

/// There is a history in which a message is posted, accepted, dispatched and acknowledged.
pub fn a_message_is_observed()
    ensures { observed.AMessageIsObserved }
{
    lossless_is_never_reset();
    a_message_comes_over();
}

/// Where a side may be marked down, what is observed is a run of the channel too: no reset comes without
/// a mark before it. The entries before the first mark are a history, of which messages come over and are
/// dispatched as they were posted. The order has to fit up to that mark alone.
pub fn observed_is_a_run_to_a_mark()
    ensures { observed.ObservedIsARunToAMark }
{
    lossless_is_never_reset();
}

/// Where a record's messages of fast keys go to a dispatcher at once, and all else goes into the queue
/// before another, each once and in order, the logs of both are those of that record: of each key some of
/// what it accepted, in order, each once, and the first ones of it as long as nothing is thrown away.
pub fn logs_are_logs_of_what_is_handed_on()
    ensures { handing.LogsAreLogs }
{
    each_key_keeps_its_order();
}

/// In a lossless history no more is counted as acknowledged at an entry than the other side has accepted
/// by then.
pub fn acknowledged_is_accepted()
    ensures { observed.AcknowledgedIsAccepted }
{
    lossless_is_never_reset();
}

/// In every order of two journals of a lossy link in which each byte was written before it is read at the
/// other end: of each key what either side accepts, and what its dispatchers are called with, is some of
/// what the other side posted, in order, each message once. Sockets may break and be replaced, asks may
/// come late, and either side may be marked down by its own node.
pub fn lossy_comes_in_order()
    ensures { lossy.LossyComesInOrder }
{
    replays_are_sound();
}
