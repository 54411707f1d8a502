//! Sockets of peers, handed over to the event threads of a node at which their peers are at home.
//!
//! What it is: [`Door`], which stands in the port of a node's first thread: it accepts for the whole node, shakes hands until
//! a socket is asked, and hands that over by a [`Way`] to the inbox of its home, as a [`Handed`]. [`HomePort`], the port of one
//! event thread: what it opens is its own, and what it accepts is what was handed over, as an end that begins anew.
//! [`HandedEnd`], such an end: it does once more, run by run, what was read and written on the socket before, so whoever goes
//! on with it sees a socket that it accepted itself. [`HomeRest`] is what is left of a port, [`close_inbox`] gives what is left
//! in an inbox, and [`half_inside`] makes of a half of such an end one of the end inside. [`Inboxes`] lends the inboxes, and
//! [`InboxNames`] names them, for contracts alone. It passes on what crates above name of inboxes ([`Inbox`], [`PutPass`],
//! [`GetPass`], [`MOST_ARRIVALS`]). What it isn't: a thread; `m2_node` has those.
//!
//! Each socket is in one place, whatever the schedule. A port keeps of all that the port inside has made and all that was taken
//! out of its inbox, that each is one that it has made itself, or is still to be accepted, or stands at its door, or was handed
//! over (`IsBalanced`, specs/Home.antt); so it says when it is taken apart. An inbox has one putter, and gives at its end just
//! what was put and not taken (`AreLeftIn`, specs/Handed.antt). A socket whose home has no room, or that finds no
//! memory, stays where it was; and one that was asked and stays at the door behind a turn of it was refused by each way then
//! (`WasRefused`, specs/Way.antt). What no clause says: that a socket is ever taken or accepted; that None of an
//! inbox's `take` comes only where it is empty, so that a thread may miss what was put just now, and finds it the next time;
//! of ends that were given to whoever called `accept` or `connect` nothing more is known here than their sockets' names, and
//! whoever holds them keeps them; and that a half whose end isn't done again has judged nothing, which is looked at by value
//! ([`half_inside`]).
//!
//! Where sockets are to break after so many bytes, `CutPort` stands outside, as `CutPort<HomePort<..>>`. Cuts are of sockets
//! that a node opens, and a port opens them for its own thread: it takes its cut where it connects. Inside, all that the door
//! accepts, and all that lies in an inbox, would be a `CutEnd` too, and another thread's port would have to say that it has no
//! cut; so it is by its type an end of the fabric. An end's bytes count once either way, since a cut end counts what it reads
//! and writes, again or not, and one that was handed over has no bound.
#![tactic(auto)]

mod door;
mod end;
mod handed;
mod inboxes;
mod names;
mod past;
mod port;
mod way;

pub use door::{Door, MOST_AT_DOOR};
pub use end::{HandedEnd, half_inside};
pub use handed::Handed;
pub use inboxes::close_inbox;
pub use m2_mailbox::{GetPass, Inbox, MOST_ARRIVALS, PutPass};
pub use names::{InboxNames, Inboxes, LentInboxes};
pub use port::{HomePort, HomeRest};
pub use way::Way;
