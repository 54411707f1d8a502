//! What this side answers to an ask of its peer.

ghost use Rattle.std.specs.Prelude.{◌≡◌, IfOk, true};
ghost use Rattle.m2_journal.specs.SideFacts.{cookie_of};
ghost use Rattle.m2_session.specs.SessionLaws.{takes};
ghost use Rattle.m2_core.specs.Calls as calls;
ghost use Rattle.m2_core.specs.Judging.{CanJudge, IsAnswerFrame, IsVerdict, MayBeJudged, acceptance_text, told_of, verdict_on};

use crate::cookie_at;
use crate::side::Core;
use m2_bytes::{Blob, NoMemory};
use m2_control::Control;
use m2_fabric::End;
use m2_session::{Answer, AskFacts, Carried, Event, Speaker, event_of, judge};

/// The answer of this side to an ask on a socket of its peer's.
#[derive(Clone, Copy, Debug)]
pub struct Verdict {
    /// The numbers of the ask.
    pub ask: AskFacts,
    /// The global number that was drawn for the answer.
    pub number: u64,
    /// The answer by the tables.
    pub answer: Answer,
}

impl Verdict {
    /// Whether the socket on which was asked is taken.
    pub fn takes_socket(&self) -> bool
        ensures { result ≡ takes self.now.answer }
    {
        matches!(
            self.answer,
            Answer::Accept
                | Answer::AcceptOver
                | Answer::AcceptReset { full: _ }
                | Answer::AcceptAgain
                | Answer::AcceptReplace
                | Answer::AcceptRace
                | Answer::Resume
        )
    }
}

impl<E: End> Core<E> {
    /// The answer to an ask by the session's tables.
    pub fn answer_to(&self, ask: &AskFacts) -> Answer
        ensures { result ≡ calls.answer_to ask.now self.now.live }
    {
        judge(&self.live.session, ask, self.live.out.written())
    }

    /// The answer to an ask, with the global number that was drawn for it: on a socket that this side didn't
    /// open, on which no answer was the last, it may have its entry.
    #[tactic(auto, using(crate::proofs::Judged::may_judge))]
    pub fn verdict(&self, ask: &AskFacts, number: u64) -> Verdict
        requires can { CanJudge ask.now number self.now }
        ensures value { result ≡ verdict_on ask.now number self.now.live }
        ensures is { IsVerdict result self.now }
        ensures may { MayBeJudged result self.now }
    {
        Verdict {
            ask: *ask,
            number,
            answer: self.answer_to(ask),
        }
    }

    /// The text of the frame by which the socket is taken: a SERVER_IDENT, or where the session is resumed a
    /// SESSION_RECONNECT_OK.
    #[tactic(auto, using(crate::proofs::Judged::acceptance_writable, crate::proofs::Judged::acceptance_short, crate::proofs::Judged::acceptance_text_is))]
    pub fn acceptance(&self, v: &Verdict) -> Result<Blob, NoMemory>
        requires verdict { IsVerdict v.now self.now }
        requires takes { takes v.now.answer ≡ true }
        ensures { IfOk result (λ text. text.bytes ≡ acceptance_text self.now.facts v.now self.now.live.last) }
    {
        let frame = self.acceptance_frame(v)?;
        m2_feed::frame_of(self.alloc, &frame)
    }

    /// The payload of that frame.
    #[tactic(auto, using(crate::proofs::Judged::some_frame))]
    fn acceptance_frame(&self, v: &Verdict) -> Result<Control, NoMemory>
        requires verdict { IsVerdict v.now self.now }
        requires takes { takes v.now.answer ≡ true }
        ensures { IfOk result (IsAnswerFrame self.now.facts v.now self.now.live.last) }
    {
        let speaker = Speaker {
            addr: self.mine,
            place: self.node.number,
            supports: self.node.supports,
            requires_: self.node.requires_,
            lossy: self.policy.lossy,
        };
        let carried = Carried {
            cookie: self.cookie(v.number),
            global: v.number,
            last: self.live.last,
        };
        match m2_session::frame_of(self.alloc, &v.answer, &speaker, &carried)? {
            Some(frame) => Ok(frame),
            None => unreachable!(),
        }
    }

    /// What the session is told of the answer, where it is told anything.
    pub(crate) fn told_of(&self, v: &Verdict) -> Option<Event>
        ensures { result ≡ told_of self.now.facts v.now }
    {
        let mut ask = v.ask;
        if self.policy.lossy {
            ask.client = 0;
        }
        event_of(&ask, &v.answer, self.cookie(v.number))
    }

    /// The cookie that is drawn with a number.
    fn cookie(&self, number: u64) -> u64
        ensures { result ≡ cookie_of self.now.facts number }
    {
        cookie_at(&self.policy, &self.node, number)
    }
}
