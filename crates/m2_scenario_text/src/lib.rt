//! The readers of scenario files, and of schedules, by which two records of a pair are driven for a trace.
//!
//! What it is: [`read`], the scenario of a text or its first bad line with its [`Flaw`], the place in it and what is
//! [`Wanted`] there (docs/SCENARIOS.md has every form of line); [`FirstWord`], what a line is about, and [`Form`],
//! which lines a file may have, for callers that look at a text themselves; and [`read_schedule`], the [`Schedule`] of
//! a text, the two sides' policies and what is to be done, line by line (docs/PROTOCOL.md has every form); and
//! [`explanation`], what is bad in a text, told from the reader's own answer (docs/SCENARIOS.md, "A bad line
//! explained"; `specs/Explained.antt`). Each form of line has a reader, which judges the line's words in the order of
//! the kinds, and those of scenarios push what they say onto a draft. What it isn't: words, scenarios (`m2_scenario`),
//! a run of one, or the driving of two records (`m2_record_trace`).
#![tactic(auto)]

mod bad_scenario;
mod bad_schedule;
mod explained;
mod first_word;
mod flaw;
mod form;
mod lines;
mod link_line;
mod node_line;
mod node_option;
mod pair;
mod plan_lines;
mod reading;
mod run_lines;
mod schedule;
mod schedule_reading;
mod sim_lines;
mod told;
mod verb;
mod vocabulary;

pub use bad_scenario::BadScenario;
pub use bad_schedule::BadSchedule;
pub use explained::explanation;
pub use first_word::FirstWord;
pub use flaw::{Flaw, Place, Wanted};
pub use form::Form;
pub use plan_lines::{LEAST_PRIORITY, MOST_PRIORITY};
pub use reading::{MOST_BYTES, read};
pub use run_lines::MOST_LIMIT;
pub use schedule::{Instruction, Order, OrderList, PairFacts, Schedule, SideName};
pub use schedule_reading::read_schedule;
pub use sim_lines::MOST_ROUNDS_OF_A_LINE;
pub use verb::Verb;
