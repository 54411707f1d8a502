//! The one open socket of a record, as code over an end, and what the frames on it say.
//!
//! What it is: [`Feed`], an end with what reads it (a half of the handshake at the side that opened the socket, and a
//! frame decoder once both sides have signed), and with the text that is being written. [`hear`] says of a whole frame
//! in place what the side that reads it has to do with it, by where its session stands and by its numbers ([`Hearer`]);
//! [`FrameHeard`] has its answers, and [`WireFault`] the causes for which a feed is closed. Of a side that has asked
//! for a session, [`heard_in`] and [`heard_at_front`] say which answer a frame is, with its facts ([`Heard`]), or why
//! it is none ([`AnswerFault`]). An answer that a side waits for is taken when it is read; what [`hear`] says of one is
//! said of one that still stands at the front, which is a fault, but for a reset, which is to be obeyed. What it isn't:
//! a record. It knows no queue and no journal, and decides nothing: whoever holds it says what is composed and which
//! frames are passed.
//!
//! Contracts see a [`Feed`] as one value, `FeedNow`, and each call is one relation between two of them
//! (`specs/Calls.antt`). `specs/Stands.antt` says how such a value lies beside the feed that a journal is replayed to.
//! The laws: each call, with the step of the replay that belongs to it, keeps it so (`specs/FeedLaws.antt`); and what a
//! frame says is what the replay of a journal hears at the same place (`specs/FrameLaws.antt`,
//! `specs/AnswerLaws.antt`). The rules are those of docs/PROTOCOL.md.
#![tactic(auto)]

mod answer_fault;
mod answer_laws;
mod answers;
mod composing;
mod feed;
mod feed_laws;
mod frame_heard;
mod frame_laws;
mod front;
mod heard;
mod hearer;
mod hearing_answers;
mod hearing_frames;
mod moving;
mod outgoing;
mod reader;
mod wire_fault;
mod writing;

pub use answer_fault::AnswerFault;
pub use answer_laws::{frames_are_heard_as_in_the_replay, fronts_are_heard_as_in_the_replay};
pub use answers::FeedWrite;
pub use composing::{IDENT_BYTES, RECONNECT_BYTES, frame_of};
pub use feed::{Feed, MOST_READ};
pub use feed_laws::{
    a_feed_begins_beside_its_replay, an_asks_text_is_known, another_state_stays_beside_the_feed,
    faults_are_faults_of_the_replay, reading_stays_beside_the_replay,
    what_is_acknowledged_was_told, what_is_composed_may_be_put, what_is_put_is_lawful,
    what_is_taken_is_next,
};
pub use frame_heard::FrameHeard;
pub use frame_laws::{
    a_message_asks_for_its_size, what_brings_a_message_is_one,
    what_is_heard_is_what_the_replay_says,
};
pub use front::heard_at_front;
pub use heard::Heard;
pub use hearer::Hearer;
pub use hearing_answers::heard_in;
pub use hearing_frames::hear;
pub use wire_fault::WireFault;
pub use writing::Writing;
