//! The session core: which socket feeds a session when connects cross, sockets break and old asks arrive late.
//!
//! What it is: [`Session`], what one side of a link remembers of the other, and its [`Phase`]; [`judge_ident`] and
//! [`judge_reconnect`], the [`Answer`] to an ask that arrives on a socket which the other side opened; [`step`], what
//! an [`Event`] makes of a session and which [`Effects`] the caller owes; [`rises`], whether a dial's connect number
//! is one more. And what stands between these and the wire: [`AskFacts`], the numbers of an ask, with
//! [`facts_of_ident`] and [`facts_of_reconnect`]; [`judge`], the answer to an ask by its facts, and [`event_of`], what
//! the session is told of it; [`frame_of`], the frame that is written for an answer; [`cookie_of`], the cookie that a
//! node draws; [`dials`], when a side dials. Each is a definition that computes and a function that is proved equal to
//! it, so that a record and whoever replays it go by the same. What it isn't: sockets, queues or clocks. Only the
//! frame of an accept takes memory.
//!
//! The caller judges an ask first. Of an answer that takes the socket, or of [`Answer::ResetPending`], it tells the
//! session by `step`; every other answer leaves the session as it is. The two tables of judgement and the table of
//! steps stand in docs/PROTOCOL.md as they stand in the specs, and it says of each rule whose it is; `session_laws` and
//! `answer_laws` say what a reader expects of them.
#![tactic(auto)]

mod answer;
mod answer_laws;
mod ask;
mod cookie;
mod dial;
mod event;
mod frame;
mod judgement;
mod session;
mod session_laws;
mod steps;

pub use answer::Answer;
pub use answer_laws::{answers_are_read_again, cookies_tell_draws_apart, dials_are_lawful};
pub use ask::{AskFacts, event_of, facts_of_ident, facts_of_reconnect, judge};
pub use cookie::{CookieParts, MOST_PLACES, cookie_of};
pub use dial::dials;
pub use event::{Effects, Event};
pub use frame::{Carried, Speaker, frame_of};
pub use judgement::{judge_ident, judge_reconnect};
pub use session::{Phase, Session};
pub use session_laws::{
    answers_are_lawful, at_most_one_feed, connect_rises_by_one, mark_down_forgets,
    messages_are_lost_only_so, peer_global_never_falls, pending_leaves_nothing_pending,
    resumed_only_with_its_cookies, rows_are_read_in_order, taken_is_ready,
};
pub use steps::{is_lawful, rises, step};
