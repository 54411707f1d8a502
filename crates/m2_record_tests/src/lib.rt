//! Tests of records: that calls which take memory do what they are for where there is some, and what two records of a pair
//! come to. A body that always answered for want of memory would be proved too.
//!
//! What it is: one record by its single calls (`planned`), and in a thread's turn (`thread`); the halves of a center (`halves`); two over ends in memory, driven
//! from nothing to Ready and a post (`posts`), with a socket that breaks at each of many places (`cuts`) and a session that is
//! resumed (`resuming`), with bytes that no record writes (`faults`), with messages as large as a throttle lets through
//! (`bounds`), and with a mark-down between two posts (`lives`). It stands apart from the crates,
//! since a crate with tests is proved twice. What it isn't: what a clause says already.
#![tactic(auto)]

#[cfg(test)]
mod bounds;
#[cfg(test)]
mod cuts;
#[cfg(test)]
mod driving;
#[cfg(test)]
mod faults;
#[cfg(test)]
mod halves;
#[cfg(test)]
mod lives;
#[cfg(test)]
mod planned;
#[cfg(test)]
mod posts;
#[cfg(test)]
mod resuming;
#[cfg(test)]
mod thread;
