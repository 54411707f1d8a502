//! The row that gave the answer to an ask, as a word.

ghost use Rattle.std.specs.Prelude.{◌≡◌};
ghost use Rattle.m2_journal.specs.SideFacts.{cookie_of};
ghost use Rattle.m2_session.specs.SessionLaws as session;
ghost use Rattle.m2_trace.specs.Rows as rows;
ghost use Rattle.m2_trace.specs.Rows.{side_of};

use m2_journal::{Entries, Entry, NodeFacts};
use m2_session::{Answer, AskFacts, CookieParts, Session, cookie_of};

/// What tells the rows apart that answer a reconnect by a reset: whether there is no session, and the client cookie that is
/// kept, 0 where none is. It has room for the cookie of each place that a node can have.
#[derive(Clone, Copy, Debug)]
pub struct Held {
    pub absent: bool,
    pub client: u128,
}

/// The name of the row by which the ask was answered so, behind a space. `held` is what was held until then.
pub fn row_word(held: &Held, ask: &AskFacts, answer: &Answer) -> &'static [u8]
    ensures { result.now ≡ rows.row_word held.now ask.now answer.now }
{
    if ask.ident {
        row_of_ident(answer)
    } else {
        row_of_reconnect(held, ask, answer)
    }
}

/// The same of an ident.
fn row_of_ident(answer: &Answer) -> &'static [u8]
    ensures { result.now ≡ rows.row_of_ident answer.now }
{
    match answer {
        Answer::Accept => b" no_session",
        Answer::Close => b" old_number",
        Answer::AcceptOver => b" lossy",
        Answer::AcceptReset { full: _ } => b" another_client",
        Answer::AcceptAgain => b" same_client",
        Answer::AcceptReplace => b" settled",
        Answer::AcceptRace => b" peer_wins",
        _ => b" mine_wins",
    }
}

/// The same of a reconnect.
fn row_of_reconnect(held: &Held, ask: &AskFacts, answer: &Answer) -> &'static [u8]
    ensures { result.now ≡ rows.row_of_reconnect held.now ask.now answer.now }
{
    match answer {
        Answer::Reset { full: _ } => row_of_reset(held, ask),
        Answer::ResetPending => b" never_established",
        Answer::RetryGlobal { number: _ } => b" old_number",
        Answer::Retry { number: _ } => b" old_connect",
        Answer::Wait => b" mine_wins",
        Answer::Close => b" never_written",
        _ => b" goes_on",
    }
}

/// The same of a reconnect that was answered by a reset.
fn row_of_reset(held: &Held, ask: &AskFacts) -> &'static [u8]
    ensures { result.now ≡ rows.row_of_reset held.now ask.now }
{
    if held.absent {
        b" no_session"
    } else if held.client != ask.client as u128 {
        b" another_client"
    } else {
        b" another_server"
    }
}

/// What is held of a session that isn't lossy, behind these entries of its journal from its beginning on. `session` is the
/// record's, at any time, and `node` what its node tells it.
pub fn held_behind(session: &Session, node: &NodeFacts, journal: Entries<'_>) -> Held
    ensures { result ≡ rows.held_behind (side_of session.now node.now) journal.entry }
{
    let mut held = Held {
        absent: true,
        client: 0,
    };
    for entry in journal {
        held = held_after(session, node, &entry, held);
    }
    held
}

/// The same behind one entry more.
pub(crate) fn held_after(session: &Session, node: &NodeFacts, entry: &Entry, held: Held) -> Held
    ensures { result ≡ rows.held_after (side_of session.now node.now) entry.now held }
{
    match entry {
        Entry::Opened { socket: _ } => Held {
            absent: false,
            ..held
        },
        Entry::Judged { ask, answer, .. } => held_judging(ask, answer, held),
        Entry::Asked { ident, number } => held_asking(session, node, *ident, *number, held),
        Entry::Obeyed { full } => held_obeying(*full, held),
        Entry::Down { planned: _ } => Held {
            absent: true,
            client: 0,
        },
        _ => held,
    }
}

/// The same behind a judgement.
fn held_judging(ask: &AskFacts, answer: &Answer, held: Held) -> Held
    ensures { result ≡ rows.held_judging ask.now answer.now held }
{
    if ask.ident && takes(answer) {
        Held {
            absent: false,
            client: ask.client as u128,
        }
    } else {
        held
    }
}

/// Whether the answer takes the socket of the ask.
pub fn takes(answer: &Answer) -> bool
    ensures { result ≡ session.takes answer.now }
{
    matches!(
        answer,
        Answer::Accept
            | Answer::AcceptOver
            | Answer::AcceptReset { full: _ }
            | Answer::AcceptAgain
            | Answer::AcceptReplace
            | Answer::AcceptRace
            | Answer::Resume
    )
}

/// The same behind an ask of this side.
fn held_asking(session: &Session, node: &NodeFacts, ident: bool, number: u64, held: Held) -> Held
    ensures { result ≡ rows.held_asking (side_of session.now node.now) ident number held }
{
    if !ident {
        return held;
    }
    if held.client != 0 {
        return Held {
            absent: false,
            ..held
        };
    }
    Held {
        absent: false,
        client: drawn(session, node, number),
    }
}

/// The cookie that the side draws with a global number: each place adds as much as the first.
fn drawn(session: &Session, node: &NodeFacts, number: u64) -> u128
    ensures { result ≡ cookie_of (side_of session.now node.now) number }
{
    if session.policy.lossy {
        return 0;
    }
    let of_first = CookieParts {
        place: 0,
        salt: node.salt,
        number,
    };
    cookie_of(false, &of_first) as u128 + node.number as u128 * (1 << 56)
}

/// The same behind a reset of the peer that was obeyed.
fn held_obeying(full: bool, held: Held) -> Held
    ensures { result ≡ rows.held_obeying full held }
{
    if full {
        Held { client: 0, ..held }
    } else {
        held
    }
}
