//! Lives: what a lossless link brings over where its sides are marked down and begin anew.
//!
//! What it is: definitions and laws. A life of a side lies between two entries of its journal at which
//! message numbers are set back, and is named by the server cookie that the session keeps where it begins.
//! `specs/Lives.antt` is the channel of one direction with such lives, as a machine: its state, its steps,
//! its runs; `specs/LivesLaws.antt` is what is promised of its runs.
//!
//! | step | may be taken where | what changes |
//! |---|---|---|
//! | `post` | always | the message is posted; the current sending life holds it |
//! | `begins_sending` | the name is 0, or no sending life has it | the current sending life ends; one of this name begins, with the first message that isn't acknowledged, or behind all where they are thrown away |
//! | `begins_receiving` | the name is 0, or no receiving life has it | a receiving life of this name begins |
//! | `accept` | it is the next message that the one sending life of the current receiving life's name holds, which isn't 0 | one more is accepted in that life |
//! | `acknowledge` | the receiving life of the current sending life's name, which isn't 0, has accepted more | one more is acknowledged |
//! | `dispatch` | it is the next message of a life that was accepted and isn't dispatched, and nothing of its key is dispatched of a later life | it is dispatched |
//! | `mark` | always: a side is marked down | the channel is marked |
//! | `reset` | the channel is marked | nothing |
//!
//! `specs/Observed.antt` says what two journals in one order, with the logs of a side's dispatchers, show
//! of that channel. But for acknowledgements it is what they show of the channel without lives
//! ([`lives_show_the_same`]). Its current lives are named as those of the two records, and it posts and
//! dispatches what the entries and the logs tell ([`lives_are_named`]).
//!
//! `specs/ObservedLaws.antt` is what is promised of two lawful journals of a lossless link in an order that
//! fits, with mark-downs by either side: each life accepts from the one life of its name
//! ([`each_life_accepts_from_one`]), and what is counted as acknowledged was accepted in that life
//! ([`acknowledged_is_accepted_in_its_life`]). Where bytes fit throughout an order, it fits
//! ([`bytes_give_lives`]).
//!
//! `specs/ObservedRun.antt` is the whole: what is observed in either direction is a run of that channel, in
//! which no reset comes without a mark before it ([`observed_is_a_run_of_lives`]). Of the logs it is asked
//! that they are of each key one piece of each stretch of what the record handed on, between two of which
//! what waited was thrown away; so they are, wherever a record's messages reach its dispatchers as it hands
//! them on (`specs/Handing.antt`, [`logs_are_in_lives`]).
//!
//! `specs/LifeAfterLife.antt` says it in the words of a report, of the journal of each side by itself: of
//! each key, what is dispatched comes life after life, of each life the first ones of what the other side's
//! life of that name holds, from the first post that wasn't acknowledged in the life before
//! ([`heard_life_after_life`]). This is what a call above may promise of a link with mark-downs; none does
//! yet. There is a history in which a message is heard in a life that a mark-down ends
//! (`specs/OneLife.antt`, [`a_message_is_heard_in_a_life`]).
//!
//! `specs/LifeForLife.antt` is of one record alone, of any policy, whoever its peer is and also where it
//! gives a cookie twice: what is dispatched is of each key one piece of each life, in order
//! ([`dispatched_life_for_life`]).
//!
//! `specs/InLives.antt` has all of this of a link in one, where bytes fit throughout an order
//! ([`bytes_come_in_lives`]): what a clause of a call above is to cite.
//!
//! What it isn't: anything that runs.
//!
//! Why it holds: of each side it is noted what it has sent, in which lives it was, and in which of them it
//! was in Ready on which socket (`proofs/Ledger.antt`). All of this only grows. A side is in Ready on a
//! socket in one life, and its opener and its acceptor by one name: the cookie that the acceptor offered
//! there, or that of the session which it resumed for the opener's last ask. So a message that is accepted
//! was numbered in the life of that name, however late it comes, and no fact is needed on which ask is
//! judged when. Each entry is one of a few moves of its side (`proofs/Moves.antt`, `Entries.antt`), and
//! each move keeps what the ledgers say. The channel goes along: its ended lives hold what the ledger has of
//! them, key for key (`proofs/Backing.antt`), and its current one what the queue has numbered
//! (`proofs/Showing.antt`, `Bringing.antt`). That no reset comes without a mark is so of the channel without
//! lives already (`proofs/Marking.antt`). Messages are thrown away only where numbers are set back too, so
//! each stretch has whole lives, and pieces of stretches are pieces of lives (`proofs/Dividing.antt`,
//! `Dispatching.antt`). A lossy record throws away in the middle of a life, but accepts no more in it
//! (`proofs/LifeForLife.antt`).
#![tactic(auto)]

mod laws;

pub use laws::{
    a_message_is_heard_in_a_life, acknowledged_is_accepted_in_its_life, bytes_come_in_lives,
    bytes_give_lives, dispatched_life_for_life, each_life_accepts_from_one, heard_life_after_life,
    lives_are_named, lives_show_the_same, logs_are_in_lives, observed_is_a_run_of_lives,
    runs_deliver_in_lives, runs_keep_lives,
};
pub use m2_bytes_fit::{posts_can_be_sent, trails_tell_each_point};
