//! What an event makes of a session.

ghost use Rattle.std.specs.Prelude.{◌≡◌, ◌<◌, ◌-◌, ◌^◌, IsTrue};
ghost use Rattle.m2_session.specs.Phases.{is_among, with_feed};
ghost use Rattle.m2_session.specs.Steps as table;
ghost use Rattle.m2_session.specs.Steps.{step_of, HasFollower};

use crate::event::{Effects, Event};
use crate::session::{Phase, Session};
use m2_policy::ConnectRise;

const CLOSES: Effects = Effects {
    close: true,
    requeue: true,
    ..Effects::NONE
};

const SETS_BACK: Effects = Effects {
    set_back: true,
    ..Effects::NONE
};

/// Whether the event may come in the session's phase: whether the table has a row for it there.
pub fn is_lawful(s: &Session, e: &Event) -> bool
    ensures { result ≡ table.is_lawful s.now e.now }
{
    match *e {
        Event::Dialled => matches!(s.phase, Phase::Absent | Phase::Standby | Phase::Wait),
        Event::AskedIdent { .. } | Event::AskedReconnect => s.phase == Phase::Connecting,
        Event::GotServerIdent { .. } => s.phase == Phase::IdentSent,
        Event::GotReconnectOk | Event::GotReset { .. } => s.phase == Phase::ReconnectSent,
        Event::GotRetry { .. } | Event::GotRetryGlobal { .. } => s.phase == Phase::ReconnectSent,
        Event::GotWait => matches!(s.phase, Phase::IdentSent | Phase::ReconnectSent),
        Event::TookIdent { .. } | Event::MarkedDown => true,
        Event::TookReconnect { .. } => s.phase != Phase::Absent,
        Event::Pending => s.phase != Phase::Absent && s.phase != Phase::Ready,
        Event::Faulted { .. } => has_feed(s.phase),
    }
}

fn has_feed(phase: Phase) -> bool
    ensures { result ≡ is_among phase with_feed }
{
    matches!(
        phase,
        Phase::Connecting | Phase::IdentSent | Phase::ReconnectSent | Phase::Ready
    )
}

/// The session after the event, and what the caller owes.
///
/// The event must be one that the table has a row for in this phase ([`is_lawful`] tells), and the
/// connect numbers that are counted up must have a next one.
pub fn step(s: Session, e: Event) -> (Session, Effects)
    requires lawful { IsTrue (table.is_lawful s e) }
    requires connect { s.connect < 2 ^ 64 - 1 }
    requires retry { HasFollower e }
    ensures session { result.0 ≡ (step_of s e).session }
    ensures effects { result.1 ≡ (step_of s e).effects }
{
    match e {
        Event::Dialled => (dialled(s), Effects::NONE),
        Event::AskedIdent { cookie } => (asked_ident(s, cookie), Effects::NONE),
        Event::AskedReconnect => (in_phase(s, Phase::ReconnectSent), Effects::NONE),
        Event::GotServerIdent { cookie, global } => (
            got_server_ident(s, cookie, global),
            SETS_BACK,
        ),
        Event::GotReconnectOk => (in_phase(s, Phase::Ready), Effects::NONE),
        Event::GotReset { full } => got_reset(s, full),
        Event::GotRetry { number } => (got_retry(s, number), Effects::NONE),
        Event::GotRetryGlobal { .. } => (in_phase(s, Phase::Connecting), Effects::NONE),
        Event::GotWait => (in_phase(s, Phase::Wait), CLOSES),
        Event::TookIdent {
            full,
            client,
            server,
            global,
        } => took_ident(s, full, client, server, global),
        Event::TookReconnect { global, connect } => (took_reconnect(s, global, connect), CLOSES),
        Event::Pending => (pending(s), CLOSES),
        Event::Faulted { waits } => faulted(s, waits),
        Event::MarkedDown => marked_down(s),
    }
}

fn in_phase(s: Session, phase: Phase) -> Session
    ensures { result ≡ record s { phase = phase } }
{
    Session { phase, ..s }
}

/// Whether the connect number of a dial is one more, by the node's rule.
pub fn rises(s: &Session) -> bool
    ensures { result ≡ table.rises s.now }
{
    match s.rules.connects {
        ConnectRise::BehindReady => s.lost_ready,
        ConnectRise::WhereKept => s.server_cookie != 0,
    }
}

fn dialled(s: Session) -> Session
    requires { s.connect < 2 ^ 64 - 1 }
    ensures { result ≡ (step_of s Event.Dialled).session }
{
    Session {
        phase: Phase::Connecting,
        connect: if rises(&s) { s.connect + 1 } else { s.connect },
        lost_ready: false,
        ..s
    }
}

fn asked_ident(s: Session, cookie: u64) -> Session
    ensures { result ≡ (step_of s (Event.AskedIdent cookie)).session }
{
    Session {
        phase: Phase::IdentSent,
        client_cookie: if s.client_cookie == 0 {
            cookie
        } else {
            s.client_cookie
        },
        ..s
    }
}

fn got_server_ident(s: Session, cookie: u64, global: u64) -> Session
    ensures { result ≡ (step_of s (Event.GotServerIdent cookie global)).session }
{
    Session {
        phase: Phase::Ready,
        server_cookie: cookie,
        peer_global: s.peer_global.max(global),
        connect: 0,
        ..s
    }
}

// A full reset forgets the session; without the mark the client keeps its cookie, and asks by it.
fn got_reset(s: Session, full: bool) -> (Session, Effects)
    ensures session { result.0 ≡ (step_of s (Event.GotReset full)).session }
    ensures effects { result.1 ≡ (step_of s (Event.GotReset full)).effects }
{
    let asks_again = Session {
        phase: Phase::Connecting,
        server_cookie: 0,
        connect: 0,
        ..s
    };
    if full {
        let effects = Effects {
            discard: true,
            remote_reset: true,
            ..SETS_BACK
        };
        (
            Session {
                client_cookie: 0,
                ..asks_again
            },
            effects,
        )
    } else {
        (asks_again, SETS_BACK)
    }
}

fn got_retry(s: Session, number: u64) -> Session
    requires { number < 2 ^ 64 - 1 }
    ensures { result ≡ (step_of s (Event.GotRetry number)).session }
{
    Session {
        phase: Phase::Connecting,
        connect: number + 1,
        ..s
    }
}

fn took_ident(s: Session, full: bool, client: u64, server: u64, global: u64) -> (Session, Effects)
    ensures session { result.0 ≡ (step_of s (Event.TookIdent full client server global)).session }
    ensures effects { result.1 ≡ (step_of s (Event.TookIdent full client server global)).effects }
{
    let session = Session {
        phase: Phase::Ready,
        client_cookie: client,
        server_cookie: server,
        peer_global: s.peer_global.max(global),
        connect: 0,
        lost_ready: false,
        ..s
    };
    (
        session,
        Effects {
            set_back: true,
            discard: full,
            remote_reset: full,
            ..CLOSES
        },
    )
}

fn took_reconnect(s: Session, global: u64, connect: u64) -> Session
    ensures { result ≡ (step_of s (Event.TookReconnect global connect)).session }
{
    Session {
        phase: Phase::Ready,
        peer_global: global,
        connect,
        lost_ready: false,
        ..s
    }
}

fn pending(s: Session) -> Session
    ensures { result ≡ (step_of s Event.Pending).session }
{
    match s.phase {
        Phase::Standby => s,
        _ => in_phase(s, Phase::Wait),
    }
}

fn faulted(s: Session, waits: bool) -> (Session, Effects)
    ensures session { result.0 ≡ (step_of s (Event.Faulted waits)).session }
    ensures effects { result.1 ≡ (step_of s (Event.Faulted waits)).effects }
{
    let lost = Session {
        lost_ready: s.phase == Phase::Ready || s.lost_ready,
        ..s
    };
    if s.policy.lossy {
        let forgotten = Session {
            phase: Phase::Absent,
            client_cookie: 0,
            server_cookie: 0,
            ..lost
        };
        return (
            forgotten,
            Effects {
                discard: true,
                ..CLOSES
            },
        );
    }
    let stays = s.policy.server || (s.policy.standby && !waits);
    let phase = if stays { Phase::Standby } else { Phase::Wait };
    (Session { phase, ..lost }, CLOSES)
}

fn marked_down(s: Session) -> (Session, Effects)
    ensures session { result.0 ≡ (step_of s Event.MarkedDown).session }
    ensures effects { result.1 ≡ (step_of s Event.MarkedDown).effects }
{
    let session = Session {
        phase: Phase::Absent,
        client_cookie: 0,
        server_cookie: 0,
        connect: 0,
        lost_ready: false,
        ..s
    };
    (
        session,
        Effects {
            close: true,
            set_back: true,
            discard: true,
            ..Effects::NONE
        },
    )
}
