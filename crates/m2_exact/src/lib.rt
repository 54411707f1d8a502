//! That what is alike stays alike over ends in memory: nothing is left open but want of memory, from one read to a scenario's
//! run.
//!
//! What it is: laws over definitions, of two calls of things that are alike. An end in memory answers by what is seen of it
//! (`memory_is_exact` of `m2_fabric`), and so does what stands on it. Cores that are alike but for room read and write alike;
//! halves that are alike but for room, and for where the parts of an ask lie, move alike and get as far. Records that are alike
//! but for room step alike, dial and plan alike, judge alike and hear news alike, where no thread shares the words of their
//! throttle and of their counter. So they take their turns alike, and all records of a center do; halves that were asked the
//! same are answered alike, and so halves take their turns alike, one and all. Beside them sockets are accepted alike, and mails
//! emptied alike: with that a center's turn is told. What is alike stays so, so the laws hold of one call after another. Each
//! definition says what it forgets, and why.
//!
//! So a scenario has one run (`specs/Runs.antt`): new nodes of one scenario are alike; nodes that are act alike; what passes
//! between the ends of two networks that are is the same; and so each deed of two runs leaves them alike, and what is printed
//! of them is the same. Of two ends of one socket at a node it wouldn't be known which was told something: that none has two
//! is asked of the run, and holds of a valid scenario's (`first_stays_apart` of `m2_promise`). The calls that make a run
//! ([`Run`], [`outcome_of`]) are passed on, so that whoever makes one and cites this lists one crate.
//!
//! Beside these stands a law of one run: at each node the word of each of its throttles is just what the node holds of it
//! (`specs/Holding.antt`, [`words_are_held`]).
//!
//! What it isn't: how a run ends that finds no memory. And an end between threads tells nothing of what waits, so nothing is
//! said of what stands on it.
#![tactic(auto)]

mod laws;

pub use laws::{
    feeds_answer_by_what_is_seen, first_is_one, handshakes_answer_in_one_way,
    like_all_halves_turn_alike, like_all_records_turn_alike, like_centers_turn_alike,
    like_cores_read_and_write_alike, like_halves_advance_alike, like_halves_are_answered_alike,
    like_halves_move_alike, like_halves_turn_alike, like_mails_empty_alike,
    like_networks_pass_alike, like_nodes_act_alike, like_ports_accept_alike,
    like_records_dial_and_plan_alike, like_records_judge_alike, like_records_step_alike,
    like_records_turn_alike, like_runs_are_told_alike, like_runs_do_alike, runs_are_one,
    words_are_held,
};
pub use m2_script::{Outcome, Run, addresses, clear_all, cluster_of, outcome_of};
