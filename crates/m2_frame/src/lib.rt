//! Frames of msgr2.1 in crc mode: their tags, their text, and a decoder for streams that come in any pieces.
//!
//! What it is: [`Tag`], what a frame is, as Ceph's msgr2 documentation numbers and names it; [`Frame`], a tag with up
//! to four segments of bytes; [`FrameView`], one whose segments lie elsewhere; [`Preamble`], the 32 bytes that a frame
//! begins with; [`encode`] and [`encode_view`], which append a frame's text; [`Decoder`], which is fed the pieces of a
//! stream and answers its frames in order, or the first fault. What it isn't: the meaning of segments, sessions, or
//! input and output. A new tag is a row of each table in `tag.rt`.
#![tactic(auto)]

mod decoder;
mod encoding;
mod epilogue;
mod fault;
mod finding;
mod frame;
mod got;
mod judging;
mod laws;
mod preamble;
mod tag;
mod view;

pub use decoder::Decoder;
pub use encoding::{CRC_BYTES, EPILOGUE_BYTES, encode, encode_view};
pub use fault::FrameFault;
pub use frame::{CONTROL_LIMIT, Frame, MESSAGE_LIMIT, MOST_SEGMENTS, fits};
pub use got::Got;
pub use laws::{
    a_written_frame_is_read, bad_by_the_tables, judged_by_the_tables, no_text_begins_another,
    one_reading,
};
pub use preamble::{PREAMBLE_BYTES, Preamble};
pub use tag::{FIRST_TAG, LAST_TAG, Tag};
pub use view::FrameView;
