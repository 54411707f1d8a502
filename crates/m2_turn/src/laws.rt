//! What a reader expects of a center's parts. Each function has an empty body: its
//! contract is the law.

ghost use Rattle.m2_turn.specs.Laws as laws;

use m2_fabric::End;

/// A record's step opens no socket and judges no ask: its journal goes on by other entries. What never
/// changes of a record is the same behind it.
pub fn steps_bring_no_socket()
    ensures { laws.StepsBringNoSocket }
{}

/// A socket that a record neither opened nor judged on is named by no entry of it, and no end of it is that
/// socket's.
pub fn records_know_their_sockets()
    ensures { laws.RecordsKnowTheirSockets }
{}

/// What a record knows of the socket of a half that it didn't take stays so behind its steps.
pub fn steps_keep_what_is_known()
    ensures { laws.StepsKeepWhatIsKnown }
{}

/// So does what it knows of a half whose ask it has judged and whose socket it didn't take.
pub fn judging_keeps_what_is_known<E: End>()
    ensures { laws.JudgingKeepsWhatIsKnown E }
{}

/// And what it knows of other halves stays so behind a judgement.
pub fn judging_keeps_others<E: End>()
    ensures { laws.JudgingKeepsOthers E }
{}
