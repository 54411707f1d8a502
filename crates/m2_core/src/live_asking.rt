//! The ask of a side, composed.

ghost use Rattle.std.specs.Prelude.{◌≡◌, ◌≤◌, ◌<◌};
ghost use Rattle.m2_session.specs.declared.cookie.TheConstants.{MOST_PLACES};
ghost use Rattle.m2_control.specs.declared.fields.TheConstants.{GREATEST_NUMBER};
ghost use Rattle.m2_feed.specs.FeedNow.{CanCompose};
ghost use Rattle.m2_frame.specs.declared.frame.TheConstants.{CONTROL_LIMIT};
ghost use Rattle.m2_handshake.specs.Texts.{frame_text};
ghost use Rattle.m2_journal.specs.SideFacts.{SideFacts, cookie_of};
ghost use Rattle.m2_session.specs.declared.session.Phase.TheVariants.{Connecting};
ghost use Rattle.m2_session.specs.Steps.{step_of};
ghost use Rattle.m2_core.specs.LiveNow.{OnFeedNow};
ghost use Rattle.m2_core.specs.OnFeed.{CanAsk, ComposesAsk};
ghost use Rattle.m2_core.specs.LiveAsking.{AsksNow, IsAsk, ReservesAsk, ask_len, asked_event, filled};

use crate::live::Live;
use crate::on_feed::{compose_on, reserve_on};
use m2_bytes::NoMemory;
use m2_control::{ClientIdent, Control, SessionReconnect};
use m2_fabric::End;
use m2_feed::{Feed, IDENT_BYTES, RECONNECT_BYTES};
use m2_journal::NodeFacts;
use m2_policy::Policy;
use m2_session::{CookieParts, Event, Session, cookie_of, step};

impl<E: End> Live<E> {
    /// Makes the room that an ask takes. Err for want of memory changes nothing but that room.
    pub fn reserve_ask(&mut self, len: usize) -> Result<(), NoMemory>
        requires feed { OnFeedNow self.old.feed CanAsk }
        requires short { len ≤ CONTROL_LIMIT }
        ensures room { ReservesAsk result len self.old self.new }
    {
        reserve_on(&mut self.feed, len)
    }

    /// Tells the session that it asks, and composes the ask in the room that was made: an ident with this
    /// cookie or a reconnect, with this global number. Takes no memory.
    pub fn compose_ask(&mut self, ident: bool, cookie: u64, number: u64, ask: Control)
        requires phase { self.old.session.phase ≡ Connecting }
        requires connect { self.old.session.connect ≤ GREATEST_NUMBER }
        requires feed { OnFeedNow self.old.feed CanAsk }
        requires ask { IsAsk (ask_len ident) ask }
        requires room { OnFeedNow self.old.feed (λ v. CanCompose v (ask_len ident)) }
        ensures asks { AsksNow ident cookie number ask self.old self.new }
    {
        ask_on(
            &mut self.session,
            &mut self.feed,
            ident,
            cookie,
            number,
            ask,
        );
    }
}

/// The cookie that is drawn with a number.
pub fn cookie_at(policy: &Policy, node: &NodeFacts, number: u64) -> u64
    requires { node.now.number < MOST_PLACES }
    ensures { (f : SideFacts) → f.policy ≡ policy.now → f.node ≡ node.now → result ≡ cookie_of f number }
{
    let parts = CookieParts {
        place: node.number,
        salt: node.salt,
        number,
    };
    cookie_of(policy.lossy, &parts)
}

/// The ask with this cookie, where it is an ident, and this number.
fn fill(ask: Control, cookie: u64, number: u64) -> Control
    ensures { result ≡ filled cookie number ask }
{
    match ask {
        Control::ClientIdent(p) => Control::ClientIdent(ClientIdent {
            addrs: p.addrs,
            target: p.target,
            gid: p.gid,
            global: number,
            supported: p.supported,
            required: p.required,
            flags: p.flags,
            cookie,
        }),
        Control::SessionReconnect(p) => Control::SessionReconnect(SessionReconnect {
            addrs: p.addrs,
            client: p.client,
            server: p.server,
            global: number,
            connect: p.connect,
            seen: p.seen,
        }),
        other => other,
    }
}

/// Tells the session that it asks, and composes the ask on the feed in the room that was made.
fn ask_on<E: End>(
    session: &mut Session,
    feed: &mut Option<Feed<E>>,
    ident: bool,
    cookie: u64,
    number: u64,
    ask: Control,
)
    requires phase { session.old.phase ≡ Connecting }
    requires connect { session.old.connect ≤ GREATEST_NUMBER }
    requires feed { OnFeedNow feed.old CanAsk }
    requires ask { IsAsk (ask_len ident) ask }
    requires room { OnFeedNow feed.old (λ v. CanCompose v (ask_len ident)) }
    ensures session { session.new ≡ (step_of session.old (asked_event ident cookie)).session }
    ensures feed { ComposesAsk (frame_text (filled session.new.client_cookie number ask)) feed.old feed.new }
{
    let event = asked_event(ident, cookie);
    let (asked, _) = step(*session, event);
    *session = asked;
    let filled = fill(ask, asked.client_cookie, number);
    compose_on(feed, &filled);
}

/// How many bytes the payload of an ask has.
pub fn ask_len(ident: bool) -> usize
    ensures value { result ≡ ask_len ident }
    ensures short { result ≤ CONTROL_LIMIT }
{
    if ident { IDENT_BYTES } else { RECONNECT_BYTES }
}

/// The event of an ask.
fn asked_event(ident: bool, cookie: u64) -> Event
    ensures { result ≡ asked_event ident cookie }
{
    if ident {
        Event::AskedIdent { cookie }
    } else {
        Event::AskedReconnect
    }
}
