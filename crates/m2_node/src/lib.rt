//! Nodes on threads: the event threads of each and its dispatcher, from before their first turn until they have
//! ended.
//!
//! What it is: [`rooms_of`] makes an inbox for each event thread, and [`shared_by`] what the threads of each node
//! share. Over the inboxes ([`Doors`]) and the ports of a fabric whose nodes listen, [`begin_listening`] makes the
//! [`Worker`] of each event thread: a center, whose records are those of the thread's home, with the steps that the
//! lines have it do. [`work_out`] runs all workers at once, each with a mail in which it puts what it hands on to the
//! dispatcher of its node, and the dispatchers beside them, until the [`Signs`] say stop; then it closes the mails,
//! so that each dispatcher was called with all that was handed on. [`join_all`] makes a [`RunNode`] of the workers of
//! each node, which its owner has take turns and wait at its ports ([`RunNode::turn`], [`RunNode::poll`]), reads, and
//! takes apart at the end ([`RunNode::into_parts`]). The port of a thread is a [`RunPort`]: one of the fabric, whose
//! ends ([`RunEnd`]) break where lines cut them, or that of a node that is off.
//!
//! `specs/Begins.antt` says what nodes are before their first turn, `specs/Working.antt` what the workers of nodes do,
//! `specs/Watching.antt` how often, `specs/Handing.antt` what they hand on, and `specs/Way.antt` what a node is at a
//! moment and how it goes on: [`turns_go_on`], [`polls_go_on`] and [`waiting_goes_on`] are its laws. It passes on what
//! crates above name of centers ([`Record`], [`CenterRest`], [`NodeShared`], [`Passes`]), of scripts ([`cuts_of`],
//! [`is_down_towards`], [`messages_of`], [`posts_towards`], [`sum`]) and of links ([`weave`], [`Side`], [`WeaveFault`],
//! [`are_of_link`]), and the laws of what begins and ends ([`new_records_can_begin`], [`centers_begin_on_course`],
//! [`begin_logged`], [`begin_of_peers`], [`centers_run_their_course`]).
//!
//! What it isn't: a run (`m2_run`), which has nodes listen, goes on with them on its own thread until all is still,
//! and tells what came of it.
#![tactic(auto)]

mod beginning;
mod counting;
mod dispatcher;
mod end;
mod mails;
mod node;
mod planning;
mod port;
mod posts;
mod records;
mod rooms;
mod sending;
mod serving;
mod sharing;
mod threads;
mod watch;
mod way_laws;
mod worker;

pub use beginning::{Doors, begin_listening};
pub use counting::posts_that_count;
pub use dispatcher::NodeDispatcher;
pub use end::RunEnd;
pub use m2_links_go_on::{
    Side, WeaveFault, are_of_link, begin_logged, begin_of_peers, centers_begin_on_course,
    centers_run_their_course, weave,
};
pub use m2_script::{
    CenterRest, NodeShared, Passes, Record, cuts_of, is_down_towards, messages_of,
    new_records_can_begin, posts_towards, sum,
};
pub use node::{RunCenter, RunNode, Shares, clear_centers, clear_nodes, clear_shares, end_records};
pub use port::RunPort;
pub use posts::{Closed, work_out};
pub use rooms::{Rights, Rooms, let_inboxes_go, let_rooms_go, rooms_of};
pub use sharing::{FirstPasses, Shared, rights_of, shared_by};
pub use threads::{Joined, join_all};
pub use way_laws::{polls_go_on, turns_go_on, waiting_goes_on};
pub use worker::{Signs, Worker};
