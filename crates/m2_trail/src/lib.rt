//! What a socket of the peer did before a record took it: the acceptor's half of the handshake over an end, with the
//! trail that it leaves.
//!
//! What it is: [`Incoming`], an accepted end with its half, which reads, answers and writes; [`advance`], a half's
//! turn: it puts what it has written, answers what it has read, and reads on where that gives no further answer, until
//! it is asked, waits, is over or has made its moves for this turn; [`Arrival`], one that was asked and waits to be
//! judged; [`Loose`], one that no record took; and [`Trail`], what they note: reads, writes and close in order, and the
//! asks that were judged. What it isn't: a session. It knows no tables of judgement and no addresses of links: whoever
//! judges says the answer, and the half replies with the frame of that answer. Whoever calls hands an asked half on,
//! and closes one that is over.
//!
//! Two facts of a trail hold beside the log of its end, at any time (`specs/Trails.antt`): each judged ask is one that
//! the half came to before it was judged, by what it had got by then and by the replies to the asks before; and at each
//! point what was put is what an acceptor's half writes by what it got there and by the answers judged by then, where
//! its replies are the frames of the answers and at most one refusal behind them. They are kept by the types here, so
//! whoever holds one knows them, and so does a record that takes a half, which is then known to owe one reply and to
//! have put all that it wrote.
#![tactic(auto)]

mod arrival;
mod facts;
mod half_laws;
mod home;
mod incoming;
mod loose;
mod moving;
mod replies;
mod step;
mod trail;
mod trail_laws;
mod turn;
mod turn_moves;
mod unput;

pub use arrival::{Arrival, Takeover};
pub use facts::facts_of_ask;
pub use half_laws::turns_leave_the_half;
pub use home::HomeOf;
pub use incoming::{Incoming, MOST_READ};
pub use loose::{Loose, LooseList};
pub use replies::reply_to;
pub use step::IncomingStep;
pub use trail::{Trail, TrailList};
pub use trail_laws::{asks_can_be_read, replies_are_frames, trails_cover, trails_stay};
pub use turn::{HalfTurn, MOST_MOVES, advance};
