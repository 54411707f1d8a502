//! What becomes of a link where nodes take their turns: of each link there is an order of all that was done, if there
//! was one before, and what was handed on was dispatched once.
//!
//! What it is: definitions and laws, in nine parts.
//!
//! - *Two sides of a link whose nodes act in turns can be woven.* `specs/Sides.antt` says what two sides of a link and
//!   the halves beside them are behind a turn, beside what they were before it: journals go on, halves go on or come,
//!   or a side takes them, and all that an end has got the other end had put before the turn; `specs/Records.antt` what
//!   that is of sides that records keep, and `specs/Told.antt` what they tell of their bytes. By `specs/TurnLaws.antt`
//!   the sides have an order behind the turn where they had one before it; and of sides that have one `weave` of
//!   `m2_history` finds it.
//! - *What a node's turn does to a link.* `specs/Linked.antt` says what two nodes with a link between them are, and
//!   that in a turn either acts or stays as it is; by `specs/LinkLaws.antt` the two records of the link and the halves
//!   beside them go on, so where all that was done on the link had an order, it has one still. That what an end got in
//!   the turn the other end had put before it is a premise.
//! - *What a cluster's calls leave of its nodes.* `specs/Center.antt` says what a center has of the sockets of its
//!   port, and `specs/Cluster.antt` what is known of all nodes; by `specs/ClusterLaws.antt`, behind a center's turn,
//!   and where one of its records plans a step, nothing that was done is undone; and so all ends of its cluster grow.
//!   `specs/ClusterTold.antt` says what is the same where ends are told of the other side, and `specs/ToldLaws.antt`
//!   that it is all but what they were told.
//! - *What is woven of two records of a cluster stays the same where ends are told of the other side*
//!   (`specs/ToldSides.antt`, `specs/TellingLaws.antt`).
//! - *What a node's dispatchers were called with* is what the records of its center handed on. `specs/Logged.antt` says
//!   where each parcel went: to the dispatcher of fast keys at once, or it is held for it; or it was put into the queue
//!   before the other dispatcher, or is in the mail; each once and in order. By `specs/LogLaws.antt` it is so at first,
//!   and stays so behind a center's turn and each stage of it, behind a step that is planned, and behind what ends are
//!   told; and so of each record its peer is heard to send, of each key, some of what the record accepted, in order,
//!   each once. All these calls, and all that is on its way to the dispatchers, are of peers of the records
//!   (`specs/OfPeers.antt`, `specs/PeerLaws.antt`).
//! - *Ends in memory stay in step* whatever nodes do and whatever passes between them (`specs/InStep.antt`), by the laws of
//!   `m2_growth`.
//! - *What an order says of a link* (`specs/WovenSo.antt`), by the laws of `m2_weave` and `m2_history`.
//! - *What an event thread keeps while it takes turns*, over sockets of any kind. `specs/Made.antt` says what a scenario
//!   says of a node and of its records, and which records are begun. `specs/Course.antt` says when a center is on its
//!   course at a moment: its records are what they were made, down to their plans, since a turn plans nothing; of each
//!   socket that its port made there is one end, and no other; of each connect that a record missed the port has
//!   counted one; and the moment of each record's last productive entry is one that the clock may give, and no connect
//!   waits longer than the longest wait from the moment on. By `specs/CourseLaws.antt` a new center is on its course; so
//!   is one behind a turn at a moment that the clock may give, behind a poll, and where time passes; and
//!   `specs/CourseEnded.antt` says what of it holds of what is left when the center ends. Why a half was closed, and
//!   which ask was refused for missing features, it doesn't say.
//! - *What is left of nodes whose event threads have ended*, over sockets of any kind: their records, and the halves
//!   that none of them took (`specs/Left.antt`). By `specs/LeftLaws.antt` two records of such nodes that are towards each
//!   other can be woven, and where their strands have an order they are joined; a center keeps in its turns who asked,
//!   whatever sockets there are; and what it leaves is a left node.
//!
//! It passes on the weaving of two records ([`weave`], [`are_of_link`], [`Side`], [`WeaveFault`]) for whoever has nodes whose threads
//! have ended. What it isn't: anything that runs.
#![tactic(auto)]

mod cluster_laws;
mod course_laws;
mod in_step_laws;
mod left_laws;
mod link_laws;
mod log_laws;
mod peer_laws;
mod telling_laws;
mod told;
mod turn_laws;
mod woven_laws;

pub use cluster_laws::{
    node_plan_grows, node_turn_grows, plan_brings_elsewhere, plan_grows, turn_brings_elsewhere,
    turn_grows,
};
pub use course_laws::{
    centers_begin_on_course, centers_run_their_course, dials_stay_in_time, lasts_stay_given,
    made_stays, missed_stay_counted, polls_stay_on_course, records_begin, sockets_stay_apart,
    sockets_stay_held, turns_stay_on_course, waiting_stays_on_course,
};
pub use in_step_laws::ends_stay_in_step;
pub use left_laws::{centers_leave, coming_stays, left_are_of_link, woven_nodes_are_joined};
pub use link_laws::{a_link_goes_on, links_are_woven, links_go_on, staying_goes_on};
pub use log_laws::{
    begin_logged, halves_stay_logged, logged_are_heard, mail_stays_logged, plans_stay_logged,
    records_stay_logged, rest_stays_logged, turns_stay_logged,
};
pub use m2_history::{Side, WeaveFault, are_of_link, weave};
pub use peer_laws::{
    begin_of_peers, plans_stay_of_peers, rest_stays_of_peers, turns_stay_of_peers,
};
pub use telling_laws::{told_stays_woven, woven_stays};
pub use told::{
    hearing_stays_own, incoming_is_to_come, incoming_stays_own, news_are_to_come,
    plan_stays_unused, told_center_is_same, told_cluster_is_same, told_cluster_stays_judged,
    told_cluster_stays_own, told_stays_judged, told_stays_own, turn_stays_unused,
};
pub use turn_laws::{
    an_order_is_found, kept_are_halves, records_go_on, records_in_turns_are_woven,
    records_tell_all, sides_are_later, sides_in_turns_are_woven, told_is_moved,
};
pub use woven_laws::links_are_woven_so;
