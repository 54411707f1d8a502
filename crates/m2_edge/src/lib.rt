//! The outer edge: where bytes come from and where they go, the time, words that nobody can guess, and leave to go on.
//!
//! What it is: the traits [`Source`] (named inputs, read in pieces) and [`Sink`] (bytes taken in pieces); both kept in
//! memory, with a list of calls that fail ([`MemSource`], [`MemSink`]); both over the runtime ([`StdSource`],
//! [`StdSink`]); and the two loops that every caller needs, [`read_whole`] and [`write_whole`]. The traits [`Clock`]
//! (the moment, in milliseconds), [`Words`] (64 bits at a time) and [`Gate`] (each event thread asks it before each
//! turn); each over the runtime ([`StdClock`], [`RandomWords`], [`OpenGate`]), and each known beforehand, for tests and
//! simulations ([`FixedClock`], [`CountWords`], [`HoldGate`]). [`next_moment`] reads a clock as one whose moments never
//! fall. What it isn't: a format, a timer or a scheduler. Contracts here speak of bytes, moments and words alone, and
//! nothing here wakes anybody.
//!
//! Each source and sink has a count of faults that never falls. A call answers [`Failed`] only where it made that count
//! rise, so that nobody above can answer with a fault that didn't happen. A contract over any clock says "a moment that
//! this clock may give", and one over any words "a word that these may give": at a fixed clock that is one moment, at
//! counting words one number.
#![tactic(auto)]

mod calls;
mod clock;
mod count;
mod count_words;
mod failed;
mod fixed_clock;
mod gate;
mod hold_gate;
mod input;
mod laws;
mod mem_sink;
mod mem_source;
mod open_gate;
mod random_words;
mod rising;
mod sink;
mod source;
mod std_clock;
mod std_sink;
mod std_source;
mod whole;
mod words;

pub use calls::{CallList, Calls};
pub use clock::Clock;
pub use count::Count;
pub use count_words::CountWords;
pub use failed::Failed;
pub use fixed_clock::FixedClock;
pub use gate::Gate;
pub use hold_gate::HoldGate;
pub use input::{Input, InputList};
pub use laws::counted_words_are_from_one;
pub use mem_sink::MemSink;
pub use mem_source::MemSource;
pub use open_gate::OpenGate;
pub use random_words::RandomWords;
pub use rising::next_moment;
pub use sink::Sink;
pub use source::Source;
pub use std_clock::StdClock;
pub use std_sink::StdSink;
pub use std_source::StdSource;
pub use whole::{ReadFault, read_whole, write_whole};
pub use words::Words;
