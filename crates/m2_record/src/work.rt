//! What a step works with.

use m2_shared::{NumberPass, Numbers, TakePasses, Throttles};

/// What a step of a record works with: its node's counter of global numbers and its node's throttles, each
/// with what the thread has to use them by.
#[derive(Drop)]
pub struct Work<'a> {
    pub numbers: &'a Numbers,
    pub number_pass: &'a mut NumberPass,
    pub throttles: &'a Throttles,
    pub passes: &'a mut TakePasses,
}
