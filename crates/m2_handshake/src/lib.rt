//! The handshake of msgr2.1 in crc mode: what the two ends of a socket exchange before a session.
//!
//! What it is: [`Half`], one end from its banner to the ask, as a machine on bytes: it is fed pieces of
//! its socket, appends what it writes, and says when both sides have signed; an acceptor's half is then
//! asked ([`Ask`]) and replies. [`check_ident`] is what an acceptor looks at in an ident before its
//! session judges it. What it isn't: sockets, sessions, or any authentication: the method is none.
//!
//! The table of the handshake stands in docs/PROTOCOL.md and in `specs/Steps.antt`, row by row; the
//! stages around it in `specs/Moves.antt`. `laws` says that what a half has written, which asks it has
//! answered and where it rests depend on its bytes and the replies that it was given, however the bytes
//! were cut; its course is defined in `specs/Course.antt`.
#![tactic(auto)]

mod answer;
mod ask;
mod fault;
mod half;
mod halt;
mod ident;
mod laws;
mod progress;
mod reaction;
mod stage;
mod taking;
mod texts;

pub use answer::HalfStep;
pub use ask::{Ask, AskStep};
pub use fault::HalfFault;
pub use half::Half;
pub use ident::{IdentCheck, check_ident, check_server_ident};
pub use laws::{
    a_fault_stays, a_greeting_is_signed, a_half_at_rest_answers_not_yet,
    a_message_is_refused_at_its_preamble, a_rest_is_computed, a_waiting_half_keeps_little,
    an_ask_behind_a_greeting_is_asked, an_opener_writes_its_greeting, asks_come_before_replies,
    calls_lead_on, it_signs_once, memory_is_no_fault, more_bytes_write_more, moves_stay, one_way,
    unread_bytes_are_the_end, where_a_half_rests,
};
pub use stage::{Awaited, HalfSide, Stage};
