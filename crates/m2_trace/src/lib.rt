//! What a side of a session did and where it stands, as lines of text.
//!
//! What it is: the lines of which the trace of two records is made, one function for each kind of thing:
//! [`put_start`], [`put_plan`], [`put_journal`], [`put_trail`], [`put_end`], [`put_session`] and
//! [`put_handed`]; the words of which lines are made; [`row_word`], the row of its table by which an ask was
//! answered, with [`held_behind`], what it goes by; and [`cause_word`], what made a connect due, with [`dial_cause`] and
//! [`cause_behind`], what that goes by. A line begins with the side and what it tells of;
//! docs/PROTOCOL.md has them all. What it isn't: a record, or the order in which the lines of a trace stand
//! (`m2_record_trace`).
//!
//! Each call appends its lines. On Err, for want of memory, some of them may have been appended.
#![tactic(auto)]

mod dials;
mod ends;
mod entries;
mod laws;
mod rows;
mod sides;
mod trails;
mod words;

pub use dials::{DialCause, cause_behind, cause_word, dial_cause};
pub use ends::put_end;
pub use entries::{put_ask_and_answer, put_entry_words, put_journal};
pub use laws::{causes_are_of_dials, connects_are_told, rows_are_told};
pub use rows::{Held, held_behind, row_word, takes};
pub use sides::{put_handed, put_node, put_plan, put_session, put_session_words, put_start};
pub use trails::put_trail;
pub use words::{put_bytes, put_flag, put_head, put_number, put_socket};
