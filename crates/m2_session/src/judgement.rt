//! How a session answers an ask.

ghost use Rattle.std.specs.Prelude.{◌≡◌};
ghost use Rattle.m2_session.specs.Ident.{ident_answer};
ghost use Rattle.m2_session.specs.Reconnect.{reconnect_answer};

use crate::answer::Answer;
use crate::session::{Phase, Session};
use m2_policy::wins;

/// The answer to a CLIENT_IDENT with this client cookie and global number: that of the first row
/// of the table that holds.
pub fn judge_ident(s: &Session, cookie: u64, global: u64) -> Answer
    ensures { result ≡ ident_answer s.now cookie global }
{
    if s.phase == Phase::Absent {
        return Answer::Accept;
    }
    if global < s.peer_global {
        return Answer::Close;
    }
    if s.policy.lossy {
        return Answer::AcceptOver;
    }
    if s.client_cookie != 0 && s.server_cookie != 0 && s.client_cookie != cookie {
        return Answer::AcceptReset {
            full: s.policy.resetcheck,
        };
    }
    if s.client_cookie != 0 && s.client_cookie == cookie {
        return Answer::AcceptAgain;
    }
    if s.phase == Phase::Ready || s.phase == Phase::Standby {
        return Answer::AcceptReplace;
    }
    if wins(s.rules.order, &s.peer, &s.mine, s.policy.server) {
        return Answer::AcceptRace;
    }
    Answer::Wait
}

/// The answer to a SESSION_RECONNECT with these cookies, numbers and last message seen, where
/// `written` is the greatest message number that this side has written: that of the first row of
/// the table that holds.
pub fn judge_reconnect(
    s: &Session,
    client: u64,
    server: u64,
    global: u64,
    connect: u64,
    seen: u64,
    written: u64,
) -> Answer
    ensures { result ≡ reconnect_answer s.now (record { client = client; server = server; global = global; connect = connect; seen = seen }) written }
{
    if s.phase == Phase::Absent || s.client_cookie != client {
        return Answer::Reset {
            full: s.policy.resetcheck,
        };
    }
    if s.server_cookie == 0 {
        return Answer::ResetPending;
    }
    if s.server_cookie != server {
        return Answer::Reset {
            full: s.policy.resetcheck,
        };
    }
    if s.peer_global > global {
        return Answer::RetryGlobal {
            number: s.peer_global,
        };
    }
    if s.connect > connect {
        return Answer::Retry { number: s.connect };
    }
    let mine_wins = s.mine.is_below_in(s.rules.order, &s.peer);
    if s.connect == connect && mine_wins && !s.policy.server && s.phase != Phase::Standby {
        return Answer::Wait;
    }
    if seen > written {
        return Answer::Close;
    }
    Answer::Resume
}
