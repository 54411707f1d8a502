//! What two calls of one thing, or of two that are alike, have in common where only memory may be wanted: a read or a
//! write of what stands on an end in memory, a move of a half, an answer of a handshake, which has no end, each call of a
//! record, each part of a center's turn, and that turn. And that a throttle's word is what its node holds. Each function has an
//! empty body: its contract is the law.

ghost use Rattle.m2_exact.specs.Accepts as accepts;
ghost use Rattle.m2_exact.specs.Advances as advances;
ghost use Rattle.m2_exact.specs.Answers as answers;
ghost use Rattle.m2_exact.specs.Centers as centers;
ghost use Rattle.m2_exact.specs.Cores as cores;
ghost use Rattle.m2_exact.specs.Deeds as deeds;
ghost use Rattle.m2_exact.specs.Feeds as feeds;
ghost use Rattle.m2_exact.specs.HalfTurns as half_turns;
ghost use Rattle.m2_exact.specs.Halves as halves;
ghost use Rattle.m2_exact.specs.HalvesTurns as halves_turns;
ghost use Rattle.m2_exact.specs.Handshakes as handshakes;
ghost use Rattle.m2_exact.specs.Holding as holding;
ghost use Rattle.m2_exact.specs.Judgements as judgements;
ghost use Rattle.m2_exact.specs.Mails as mails;
ghost use Rattle.m2_exact.specs.Networks as networks;
ghost use Rattle.m2_exact.specs.Nodes as nodes;
ghost use Rattle.m2_exact.specs.Records as records;
ghost use Rattle.m2_exact.specs.RecordTurns as turns;
ghost use Rattle.m2_exact.specs.RecordsTurns as all_turns;
ghost use Rattle.m2_exact.specs.Runs as runs;

use m2_dispatch::Dispatcher;
use m2_fabric::End;

/// But for want of memory, what a read and what a write of a feed whose end is in memory answers and leaves behind is a
/// function of what is seen of the feed; of the room behind a write nothing is said.
#[tactic(auto, using(crate::proofs::Feeds::exact))]
pub fn feeds_answer_by_what_is_seen()
    ensures { feeds.FeedsAnswerByWhatIsSeen }
{}

/// But for want of memory a half of a handshake that goes on, or looks for an ask, has one answer and leaves one thing behind;
/// where the parts of the ask in an answer lie in memory is free.
#[tactic(auto, using(crate::proofs::Handshakes::one))]
pub fn handshakes_answer_in_one_way()
    ensures { handshakes.HandshakesAnswerInOneWay }
{}

/// But for want of memory, of two halves whose ends are in memory and that are alike but for room and for where the parts of
/// their asks lie, the next moves are one in kind, answer and bytes that were read, and the halves stay alike, over ends in
/// memory. No more is said of what they leave (`plain`), but that a move takes no room; and what lies in a read's piece behind
/// the bytes that it gave is free.
#[tactic(auto, using(crate::proofs::Halves::alike))]
pub fn like_halves_move_alike()
    ensures { halves.LikeHalvesMoveAlike }
{}

/// But for want of memory, two cores that are alike but for room and whose feeds' ends are in memory read alike, and write
/// alike: they have one answer, stay alike, and stay over ends in memory. What two reads of one core leave is one in room too.
#[tactic(auto, using(crate::proofs::Cores::exact))]
pub fn like_cores_read_and_write_alike()
    ensures { cores.LikeCoresReadAndWriteAlike }
{}

/// But for want of memory, steps that begin alike, of two records that are alike but for room, whose feeds' ends are in memory, come to
/// the same, where no thread shares the words of throttle and counter. The records stay alike, and over ends in memory.
#[tactic(auto, using(crate::proofs::Staying::alike))]
pub fn like_records_step_alike()
    ensures { records.LikeRecordsStepAlike }
{}

/// But for want of memory, turns of two records that are alike, beside dispatchers that heard the same, end with the same, and leave what
/// is alike.
#[tactic(auto, using(crate::proofs::RecordTurns::alike))]
pub fn like_records_turn_alike<D: Dispatcher>()
    ensures { turns.LikeRecordsTurnAlike D D.heard }
{}

/// But for want of memory, where a connect is due, at two ports in memory that are the same, records that are alike open one socket and
/// stay alike; and so they do where a step is planned.
#[tactic(auto, using(crate::proofs::Dialing::alike))]
pub fn like_records_dial_and_plan_alike()
    ensures { all_turns.LikeRecordsDialAndPlanAlike }
{}

/// But for want of memory, the records of two centers that are alike, each of which dials where a connect is due and takes its steps, leave
/// what is alike.
#[tactic(auto, using(crate::proofs::RecordsTurns::alike))]
pub fn like_all_records_turn_alike<D: Dispatcher>()
    ensures { all_turns.LikeAllRecordsTurnAlike D D.heard }
{}

/// But for want of memory, mails that are alike are emptied alike: the queue's dispatcher has the same calls, and as much is given back.
#[tactic(auto, using(crate::proofs::Mails::alike))]
pub fn like_mails_empty_alike<D: Dispatcher>()
    ensures { mails.LikeMailsEmptyAlike D D.heard }
{}

/// But for want of memory, ports in memory that are the same give the same sockets, in the same order, and halves that are alike stay
/// alike beside them, over ends in memory.
#[tactic(auto, using(crate::proofs::Accepts::alike))]
pub fn like_ports_accept_alike()
    ensures { accepts.LikePortsAcceptAlike }
{}

/// But for want of memory, records that are alike give asks that say the same one answer with one number, and stay alike, over ends in
/// memory; and they hear news of the other side alike.
#[tactic(auto, using(crate::proofs::Judgements::alike))]
pub fn like_records_judge_alike<E: End>()
    ensures { judgements.LikeRecordsJudgeAlike E }
{}

/// But for want of memory, halves that are alike and whose ends are in memory make as many moves in a turn, come to the same, and stay
/// alike, over ends in memory.
#[tactic(auto, using(crate::proofs::Advances::alike))]
pub fn like_halves_advance_alike()
    ensures { advances.LikeHalvesAdvanceAlike }
{}

/// But for want of memory, halves that were asked the same, beside records that are alike, come to the same: what is found in the ask, the
/// number that is drawn, the answer and the reply are one, and what is left is alike.
#[tactic(auto, using(crate::proofs::Answers::alike))]
pub fn like_halves_are_answered_alike<E: End>()
    ensures { answers.LikeHalvesAreAnsweredAlike E }
{}

/// But for want of memory, halves that are alike and whose ends are in memory, beside records that are alike, come to the same in a turn,
/// in which each moves on, is answered where it is asked, and moves on again behind a reply; and what is left is alike.
#[tactic(auto, using(crate::proofs::HalfTurns::alike))]
pub fn like_halves_turn_alike<E: End>()
    ensures { half_turns.LikeHalvesTurnAlike E }
{}

/// But for want of memory, the halves of two centers that are alike, each of which takes its turn, leave what is alike: as many stay, as
/// many are over, and the sockets of the others were taken by the same records.
#[tactic(auto, using(crate::proofs::HalvesTurns::alike))]
pub fn like_all_halves_turn_alike<E: End>()
    ensures { halves_turns.LikeAllHalvesTurnAlike E }
{}

/// But for want of memory, in their turns centers that are alike and stand over ports and ends in memory leave what is alike, where no
/// thread shares the words of throttle and counter, and no letter of a fast kind is held at the end.
#[tactic(auto, using(crate::proofs::Centers::alike))]
pub fn like_centers_turn_alike<E: End, D: Dispatcher>()
    ensures { centers.LikeCentersTurnAlike E D D.heard }
{}

/// What a meeting, a flow and a fault tell ends in memory is a function of what is seen of them and of what flowed between them: so
/// networks that are alike stay alike.
#[tactic(auto, using(crate::proofs::Networks::alike))]
pub fn like_networks_pass_alike()
    ensures { networks.LikeNetworksPassAlike }
{}

/// But for want of memory, nodes in memory that are alike take their turns and their steps alike, and stay fit where they stay whole.
#[tactic(auto, using(crate::proofs::Nodes::alike))]
pub fn like_nodes_act_alike<E: End, D: Dispatcher>()
    ensures { nodes.LikeNodesActAlike E D D.heard }
{}

/// But for want of memory, a deed of runs that are alike leads to runs that are, where no two ends of a node are of one socket.
#[tactic(auto, using(crate::proofs::Deeds::alike))]
pub fn like_runs_do_alike<E: End, D: Dispatcher>()
    ensures { deeds.LikeRunsDoAlike E D D.heard }
{}

/// New nodes of one scenario are alike, and fit.
#[tactic(auto, using(crate::proofs::Runs::first))]
pub fn first_is_one()
    ensures { runs.FirstIsOne }
{}

/// Of runs that are alike the same is told: what the dispatchers of each node were called with, which links are up, and how many posts are
/// left.
#[tactic(auto, using(crate::proofs::Runs::told))]
pub fn like_runs_are_told_alike()
    ensures { runs.LikeRunsAreToldAlike }
{}

/// But for want of memory, two runs of one scenario come to the same, where along the one no two ends of a node are of one socket.
#[tactic(auto, using(crate::proofs::Runs::one))]
pub fn runs_are_one<E: End>()
    ensures { runs.RunsAreOne E }
{}

/// At each node of a run in memory the word of each throttle is just what the node holds of it: what its records were granted for messages
/// that aren't finished and for letters that are ready, and the letters in its outbox and in its queue. Before the first line both are 0,
/// and each deed keeps it so. So does each turn of a center, also one in which memory ran out, and each step that is planned, where no thread
/// shares the word.
#[tactic(auto, using(crate::proofs::HeldCenters::centers, crate::proofs::HeldRuns::runs))]
pub fn words_are_held<E: End, D: Dispatcher>()
    ensures centers { holding.CentersHoldTheirWords E D D.heard }
    ensures runs { holding.RunsHoldTheirWords E D D.heard }
{}
