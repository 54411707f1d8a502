//! The ordered channel: what one side of a link may expect of the messages of the other; and that this
//! is what two journals show.
//!
//! What it is: definitions and laws. `specs/Channel.antt` is the channel of one direction as a machine:
//! its state, its steps, its runs; `specs/ChannelLaws.antt` is what is promised of its runs. What it
//! isn't: anything that runs. The channel knows no sockets, cookies, numbers on the wire, resending or
//! handshakes; the code has all of these, and no such lists.
//!
//! | step | may be taken where | what changes |
//! |---|---|---|
//! | `post` | always | the message is posted, behind those before it |
//! | `accept` | it is the first of its key that was posted and isn't accepted | it is accepted |
//! | `dispatch` | it is the first of its key that was accepted and isn't dispatched | it is dispatched |
//! | `acknowledge` | so many were accepted | so many are acknowledged, or as many as before |
//! | `mark` | always: a side is marked down | the channel is marked |
//! | `reset` | nowhere | - |
//!
//! In a marked channel each step may be taken, a reset too, and changes nothing: nothing is claimed of
//! what comes behind a mark.
//!
//! `specs/Observed.antt` says what two journals in one order, with the logs of a side's dispatchers, show of the
//! channel, and `specs/ObservedLaws.antt` what is promised of that. The near side posts, the far side
//! accepts.
//!
//! | entry | of | shows |
//! |---|---|---|
//! | Post | the near side | `post`, with the key that the message has at the far side |
//! | Acked | the near side | `acknowledge` |
//! | Accepted | the far side | `accept`, with the message in the bytes |
//! | Down | either | `mark` |
//! | one that throws messages away, sets numbers back behind an acceptance of either side, or obeys a full reset | either | `reset`, behind what else it shows |
//! | any other | either | nothing |
//!
//! Behind the entries stand the dispatches that the far side's two logs have of the near side: of messages
//! that are dispatched at once, and of those that wait in the queue. Of a lossless link this is a run of the channel: [`observed_is_a_run`] where no side is marked down,
//! [`observed_is_a_run_to_a_mark`] where one may be.
//!
//! `specs/Handing.antt` says when logs are those of a record: where its messages of fast keys are dispatched
//! at once and all else is put into the queue before the other dispatcher, each once and in order
//! ([`logs_are_logs_of_what_is_handed_on`]).
//!
//! # What a lossy link brings over
//!
//! `specs/Lossy.antt` says what is promised where the policies of a link are lossy: of each key what a side accepts, and so
//! what its dispatchers are called with, is some of what the other side posted, in order, no message twice
//! ([`lossy_comes_in_order`]). It holds in every order of two lawful journals in which bytes fit: with faults, replacements,
//! asks that come late, and mark-downs. It doesn't say that a message comes over: a fault throws away what waits and what is
//! on its way.
//!
//! Why it holds: the client of such a link opens every socket, and the server judges on them. Of a socket the server takes it
//! at most once, and the client is in Ready there only behind that. So whoever comes to a socket as a reader comes before the
//! other has composed a message there: all that the reader accepted until then is some of what was composed until then, and
//! what it accepts from then on are the first ones there. A server that keeps no session takes a late ident of a socket that
//! the client has left, whatever its number; no message was or will be accepted there. And what a side has composed, on all
//! sockets in turn, and behind that what waits, is of each priority some of what it posted: its queue keeps nothing that was
//! sent.
#![tactic(auto)]

mod laws;

pub use laws::{
    a_message_is_observed, acknowledged_is_accepted, done_is_all_dispatched,
    logs_are_logs_of_what_is_handed_on, lossy_comes_in_order, observed_is_a_run,
    observed_is_a_run_to_a_mark, resets_are_observed, runs_deliver, runs_keep_order,
    unmarked_runs_deliver,
};
