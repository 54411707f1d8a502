//! The top call: a command's words in, a report and an exit status out.
//!
//! What it is: [`msgr2`], which is all that the program does, with its [`Status`]. [`Command`] is what the words ask
//! for, and [`command_of`] reads it by `clap`; which words are of which form is this crate's own definition
//! (`specs/Form.antt`). For `sim FILE` it reads the scenario file whole, runs it ([`run`], over nodes and the sockets
//! between them in memory), and prints the report; for `run FILE` it runs the nodes on threads (`m2_run`); for
//! `load N SEED` it runs a generated scenario and prints how much was dispatched; and for `frames FILE` it lists the
//! file's frames, which are never held whole. The clause of `run` is the project's promise (`specs/Run.antt`). A file has
//! one run but for want of memory, so it always prints the same ([`a_file_comes_to_one_thing`]). What it
//! isn't: the scenario's language (`m2_scenario_text`), its report and the generator (`m2_scenario`), its nodes and deeds
//! (`m2_script`), or the reading of frames in pieces (`m2_listing`).
#![tactic(auto)]

mod command;
mod dashes;
mod forms;
mod frames;
mod lines;
mod load;
mod numbers;
mod one_run;
mod playing;
mod positions;
mod print;
mod printout;
mod program;
mod running;
mod status;
mod top;

pub use command::{Command, command_of};
pub use frames::LIMIT;
pub use numbers::the_numbers_are_the_manuals;
pub use one_run::{a_file_comes_to_one_thing, a_load_comes_to_one_thing, scenarios_have_one_run};
pub use program::{Ended, run_program};
pub use running::run;
pub use status::Status;
pub use top::msgr2;
