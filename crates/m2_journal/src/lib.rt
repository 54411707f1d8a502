//! What one side of a session did, as a list of entries, and what that list leads to.
//!
//! What it is: [`Entry`], one event of a record's journal; [`EntryList`], a journal; [`NodeFacts`] and [`PlanStep`], what a
//! record knows and is to do; and definitions that compute, in `specs/`. They say what a journal
//! speaks of, given the plan and the bytes in the logs of the ends (`Items`); what the bytes on a
//! feed say (`Said`); the frames that a record writes (`OutFrames`); where a record stands by its
//! journal (`State`); what each entry leaves of that (`Steps`); when each entry may come (`Lawful`);
//! and that a record is what its journal is replayed to (`Replay`).
//!
//! What it isn't: a record. Nothing here moves a byte. Whatever stands above knows a record by one
//! fact alone, that it is the replay of its journal; the laws say what follows from that fact.
//!
//! docs/PROTOCOL.md has the rules that the definitions state; what is this project's own is marked
//! there.
#![tactic(auto)]

mod entries;
mod entry;
mod facts;
mod laws;

pub use entries::{Entries, EntryList};
pub use entry::{Entry, JudgedItem, JudgedList};
pub use facts::{NodeFacts, PlanList, PlanStep};
pub use laws::{
    a_split_is_the_one_reading, a_stream_is_read_in_pieces, acknowledgements_can_be_paid,
    answers_are_written, events_are_lawful, lives_begin_where_numbers_do, one_more_entry_leads_on,
    prefixes_are_the_first_frames, replays_are_sound, replays_stay, session_goes_by_the_table,
};
