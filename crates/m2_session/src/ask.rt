//! The numbers of an ask, and how they are judged.

ghost use Rattle.std.specs.Prelude.{◌≡◌};
ghost use Rattle.m2_session.specs.Asks as asks;

use crate::{Answer, Event, Session, judge_ident, judge_reconnect};
use m2_control::{ClientIdent, SessionReconnect};

/// The numbers of an ask: what the judges take.
#[derive(Clone, Copy, Debug, PartialEq, Eq)]
pub struct AskFacts {
    /// A CLIENT_IDENT, which has a cookie and a global number; what it hasn't is 0. Else a
    /// SESSION_RECONNECT.
    pub ident: bool,
    /// The cookie of the client; of a CLIENT_IDENT the one that it carries.
    pub client: u64,
    /// The cookie of the server.
    pub server: u64,
    /// The global number of the ask.
    pub global: u64,
    /// The connect number of the ask.
    pub connect: u64,
    /// The number of the last message that the asker has accepted.
    pub seen: u64,
}

/// The facts of a CLIENT_IDENT.
pub fn facts_of_ident(ask: &ClientIdent) -> AskFacts
    ensures { result ≡ asks.facts_of_ident ask.now }
{
    AskFacts {
        ident: true,
        client: ask.cookie,
        server: 0,
        global: ask.global,
        connect: 0,
        seen: 0,
    }
}

/// The facts of a SESSION_RECONNECT.
pub fn facts_of_reconnect(ask: &SessionReconnect) -> AskFacts
    ensures { result ≡ asks.facts_of_reconnect ask.now }
{
    AskFacts {
        ident: false,
        client: ask.client,
        server: ask.server,
        global: ask.global,
        connect: ask.connect,
        seen: ask.seen,
    }
}

/// The answer to an ask with these facts, where `written` is the greatest message number that this
/// side has written.
pub fn judge(s: &Session, ask: &AskFacts, written: u64) -> Answer
    ensures { result ≡ asks.answer_to s.now ask.now written }
{
    if ask.ident {
        judge_ident(s, ask.client, ask.global)
    } else {
        judge_reconnect(
            s,
            ask.client,
            ask.server,
            ask.global,
            ask.connect,
            ask.seen,
            written,
        )
    }
}

/// What the session is told of its answer to the ask, where `server` is the cookie that was drawn
/// for a SERVER_IDENT; nothing where the answer leaves it as it is.
pub fn event_of(ask: &AskFacts, answer: &Answer, server: u64) -> Option<Event>
    ensures { result ≡ asks.event_of ask.now answer.now server }
{
    if ask.ident {
        ident_event(ask, answer, server)
    } else {
        reconnect_event(ask, answer)
    }
}

/// The same of a CLIENT_IDENT.
fn ident_event(ask: &AskFacts, answer: &Answer, server: u64) -> Option<Event>
    ensures { result ≡ asks.told_of_ident ask.now answer.now server }
{
    let full = match *answer {
        Answer::AcceptReset { full } => full,
        Answer::Accept
        | Answer::AcceptOver
        | Answer::AcceptAgain
        | Answer::AcceptReplace
        | Answer::AcceptRace
        | Answer::Resume => false,
        _ => return None,
    };
    Some(Event::TookIdent {
        full,
        client: ask.client,
        server,
        global: ask.global,
    })
}

/// The same of a SESSION_RECONNECT.
fn reconnect_event(ask: &AskFacts, answer: &Answer) -> Option<Event>
    ensures { result ≡ asks.told_of_reconnect ask.now answer.now }
{
    match answer {
        Answer::Resume => Some(Event::TookReconnect {
            global: ask.global,
            connect: ask.connect,
        }),
        Answer::ResetPending => Some(Event::Pending),
        _ => None,
    }
}
