//! The stages of an event thread's turn.
//!
//! What it is: what a thread does in one turn to its records and to the sockets of peers that no record took, a
//! function for each stage. What holds all that, and takes the stages one after another, is the center of `m2_center`.
//!
//! A turn has four stages. [`accept_all`] accepts the sockets that wait at the port; halves wait in [`Pendings`], in
//! the order of their acceptance. In [`turn_half`] one moves on and is answered by the record that the [`Roster`] leads
//! to ([`answer_half`], which looks at its ask, has it judged by [`judge_ask`] and replies by [`reply_owed`]), and in
//! [`turn_halves`] all do. [`connect_if_due`] makes a record's connect at the port, [`turn_record`] takes the steps of
//! a record that are due, and [`turn_each`] does both of all records; [`is_idle`] says whether a record has nothing to
//! do. Their parcels go to the [`Outbox`]: letters of fast kinds are dispatched at once, all other parcels wait in the
//! mail, which [`empty_mail`] puts into the node's queue, or [`hand_mail_on`], where another thread dispatches. Each stage answers what ended it, and [`leave_all`] leaves
//! the halves at the end of a thread.
//!
//! `specs/Sessions` says what records and halves owe one another. Each stage keeps it, and asks for no more.
#![tactic(auto)]

mod accepting;
mod answering;
mod connecting;
mod half_turn;
mod halves_turn;
mod handing_on;
mod judging;
mod laws;
mod leaving;
mod mailing;
mod outbox;
mod pending;
mod record_turn;
mod records_turn;
mod roster;
mod stage_memory;

pub use accepting::{Accepted, MOST_ACCEPTS, accept_all};
pub use answering::{HalfAnswered, answer_half};
pub use connecting::connect_if_due;
pub use half_turn::{HalfTurned, MOST_ASKS, are_records, turn_half};
pub use halves_turn::{HalvesTurn, turn_halves};
pub use handing_on::hand_mail_on;
pub use judging::{AskJudged, Replied, judge_ask, reply_owed};
pub use laws::{
    judging_keeps_others, judging_keeps_what_is_known, records_know_their_sockets,
    steps_bring_no_socket, steps_keep_what_is_known,
};
pub use leaving::leave_all;
pub use mailing::{Mailed, empty_mail};
pub use outbox::{MOST_MAIL, Outbox};
pub use pending::{MOST_HALVES, Pending, Pendings};
pub use record_turn::{MOST_STEPS, RecordTurn, turn_record};
pub use records_turn::{RecordsTurn, is_idle, turn_each};
pub use roster::Roster;
pub use stage_memory::halves_are_in_memory;
