//! What each frame of a file says: a line for each, as they are read.
//!
//! What it is: [`Facts`], what a frame says, read by the definitions that the runtime reads frames by: the header of a
//! message and the sizes of its parts, or every field of a control payload, or the first fault in it ([`facts_of`]);
//! its line, of words or as one JSON object ([`Style`]): [`put_frame_line`], [`put_aborted_line`]; [`tell_frames`], the
//! lines of a file's banner and frames; [`frame_facts`], all that the program of that name does, over any source and
//! sinks; and [`FactsStatus`], how the program ended. What it isn't: a decoder of frames (`m2_frame`), or how they are
//! read in pieces (`m2_listing`).
#![tactic(auto)]

mod facts;
mod field_name;
mod fields;
mod head;
mod header;
mod laws;
mod line;
mod message_type;
mod status;
mod style;
mod teller;
mod telling;
mod top;
mod value;

pub use facts::{Facts, MessageFacts, facts_of};
pub use laws::{facts_are_read_back, lines_are_read_in_one_way};
pub use line::{put_aborted_line, put_banner_line, put_frame_line};
pub use status::FactsStatus;
pub use style::Style;
pub use telling::{Ended, tell_frames};
pub use top::{Ran, frame_facts, run_program};
