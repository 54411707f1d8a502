//! The frames that a source gives, listed: a line for each, as they come.
//!
//! What it is: [`Teller`], what is written of a frame at its place; [`list_frames`], which reads to the end of the input
//! in pieces and writes the lines of each piece before it reads the next; and [`Listing`], how that ended. What it isn't:
//! what a line says, the banner, or a file's name.
#![tactic(auto)]

mod listing;
mod passing;
mod reading;
mod teller;

pub use listing::{LIMIT, Listing, list_frames};
pub use teller::Teller;
