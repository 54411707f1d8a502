//! Messages, and how a message and a MESSAGE frame name each other.
//!
//! What it is: [`Header`] and [`Message`], a header of fixed fields and three parts of bytes, as the daemons above the
//! messenger see them; [`to_frame`], the frame that carries a message, [`put_frame`], which appends its text and copies
//! nothing else, [`from_frame`], the message that a frame carries, and [`copied_from`], that of a frame in place. The first
//! segment is the header, [`HEADER_BYTES`] bytes; front, middle and data are the other three. What it isn't: an encoding of what the parts
//! mean, the text of frames, or the session that numbers messages.
#![tactic(auto)]

mod fault;
mod frame_laws;
mod header;
mod header_text;
mod message;
mod message_frame;
mod message_laws;

pub use fault::MessageFault;
pub use frame_laws::{a_header_is_its_fields, one_message};
pub use header::Header;
pub use header_text::HEADER_BYTES;
pub use message::{MOST_PART, Message};
pub use message_frame::{copied_from, from_frame, put_frame, to_frame};
pub use message_laws::being_the_same_is_an_equivalence;
