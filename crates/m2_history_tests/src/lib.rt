//! Tests of weaving: journals and sides made by hand, generated ones, and records that were driven against each other.
//!
//! What it is: a file for each kind of thing; `by_hand`, sides that fit and ones that don't; and `driven`, runs by
//! seeds (`driving`), each woven and walked along by a check of its own (`walking`). They stand apart from the crates,
//! since a crate with tests is proved twice. What it isn't: what a clause says already.
#![tactic(auto)]

#[cfg(test)]
mod by_hand;
#[cfg(test)]
mod driven;
#[cfg(test)]
mod driving;
#[cfg(test)]
mod generated;
#[cfg(test)]
mod journals;
#[cfg(test)]
mod pairs;
#[cfg(test)]
mod walking;
