//! A program of one file: its words, what it reads, prints and says, and how it ends.
//!
//! What it is: [`Program`], what such a program says of itself: its usage line, how much of a file it reads, and which
//! text it makes of that; [`run_file`], which reads the file that the one word names, and prints the text or says why
//! there is none; [`ProgramStatus`], how that ended, with the exit code and the line on standard error; and
//! [`run_program`], all that a `main` does. [`words`] and [`write_text`] are for programs of other words too. What it
//! isn't: any program's own work, or the source and the sinks (`m2_edge`).
#![tactic(auto)]

mod complaint;
mod program;
mod running;
mod starting;
mod status;
mod writing;

pub use complaint::put_bad_line;
pub use program::Program;
pub use running::run_file;
pub use starting::{run_program, words};
pub use status::ProgramStatus;
pub use writing::write_text;
