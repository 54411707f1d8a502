//! What an answer says.

ghost use Rattle.std.specs.Prelude.{◌≡◌};
ghost use Rattle.m2_feed.specs.Heard.{event_of};

use crate::answer_fault::AnswerFault;
use m2_session::Event;

/// What a frame says to a side that has asked.
#[derive(Clone, Copy, Debug, PartialEq, Eq)]
pub enum Heard {
    /// A new session is accepted: with this cookie of the server, and this global number.
    ServerIdent { cookie: u64, global: u64 },
    /// The session is resumed; up to this number the peer has accepted messages.
    ReconnectOk { seen: u64 },
    /// The ask's connect number was late: this is the peer's.
    Retry { number: u64 },
    /// The ask's global number was late: this is the peer's.
    RetryGlobal { number: u64 },
    /// The peer connects itself.
    Wait,
    /// The peer doesn't know the session; `full` says that it forgets all of it.
    Reset { full: bool },
    /// No answer: a fault of the feed.
    Refused(AnswerFault),
}

impl Heard {
    /// What the session is told where this is read; nothing of a reset, which is obeyed apart, and of a fault.
    pub fn event(&self) -> Option<Event>
        ensures { result ≡ event_of self.now }
    {
        match *self {
            Heard::ServerIdent { cookie, global } => Some(Event::GotServerIdent { cookie, global }),
            Heard::ReconnectOk { seen: _ } => Some(Event::GotReconnectOk),
            Heard::Retry { number } => Some(Event::GotRetry { number }),
            Heard::RetryGlobal { number } => Some(Event::GotRetryGlobal { number }),
            Heard::Wait => Some(Event::GotWait),
            Heard::Reset { full: _ } | Heard::Refused(_) => None,
        }
    }
}
