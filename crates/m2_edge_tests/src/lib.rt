//! Tests of scenarios, of the edge and of the program, that neither a clause nor a file of `examples/` shows.
//!
//! What it is: what files of scenarios are refused for, a generated load as another program draws it, runs whose outcome
//! the rules tell and their reports, and the program over files that can't be read or written, and over real files; nodes
//! on threads; and each call of what lies outside refused in turn. They stand apart from the crates, since a crate with
//! tests is proved twice, and together, since each crate of tests loads its libraries again. What it isn't: what a clause
//! says already, or what the files of `examples/`, the runs of `msgr2` and `.ci/hostile.py` show, which the gate compares.
#![tactic(auto)]

#[cfg(test)]
mod crossing;
#[cfg(test)]
mod files;
#[cfg(test)]
mod load;
#[cfg(test)]
mod program;
#[cfg(test)]
mod reader;
#[cfg(test)]
mod refusals;
#[cfg(test)]
mod sim;
#[cfg(test)]
mod threads;
