//! What is promised of a link. These functions do nothing: each stands for the law that its contract
//! names.

ghost use Rattle.m2_never_reset.specs.CrossingLaws as laws;

use m2_session::cookies_tell_draws_apart;

/// Two nodes at different places draw cookies of which none is 0 and none is drawn by both.
pub fn cookies_are_mints()
    ensures { laws.CookiesAreMints }
{
    cookies_tell_draws_apart();
}

/// On a lossless link nothing that was accepted is numbered anew, and nothing is thrown away: no
/// session is reset.
#[tactic(auto, using(crate::proofs::Invariant::no_trouble_lem))]
pub fn no_trouble_comes()
    ensures { laws.NoTroubleComes }
{}

/// From the first acceptance of a message on, both sides keep the same two cookies, of which none is 0.
#[tactic(auto, using(crate::proofs::Invariant::accepted_lem))]
pub fn accepted_is_settled()
    ensures { laws.AcceptedIsSettled }
{}

/// What two runs do one after the other is a run.
#[tactic(auto, using(crate::proofs::CrossingMessage::go_on_lem))]
pub fn runs_go_on()
    ensures { laws.RunsGoOn }
{}

/// Steps can bring a message over, and have it acknowledged.
#[tactic(auto, using(crate::proofs::CrossingMessage::comes_over_lem))]
pub fn a_message_crosses()
    ensures { laws.AMessageComesOver }
{}

/// As long as no trouble has come, each side has accepted a prefix of what the other has numbered, and
/// what the other counts as acknowledged was accepted.
#[tactic(auto, using(crate::proofs::Ordered::untroubled_lem))]
pub fn untroubled_is_in_order()
    ensures { laws.UntroubledIsInOrder }
{}

/// On a lossless link that holds at any time.
#[tactic(auto, using(crate::proofs::Ordered::lossless_lem))]
pub fn lossless_is_in_order()
    ensures { laws.LosslessIsInOrder }
{}

/// What a session's judgement tables answer is a step of the link.
#[tactic(auto, using(crate::proofs::Tables::answers_lem))]
pub fn answers_are_steps()
    ensures { laws.AnswersAreSteps }
{}
