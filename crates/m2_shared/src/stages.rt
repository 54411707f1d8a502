//! The throttles of the three stages.

use crate::take_pass::TakePass;
use crate::throttle::Throttle;

/// The throttles that a message has to pass: that for messages and that for bytes of its sender's type, and
/// that of the node.
#[derive(Drop)]
pub struct Stages<'a> {
    pub messages: &'a Throttle,
    pub bytes: &'a Throttle,
    pub dispatch: &'a Throttle,
}

/// The rights of a thread to take from them and to give back.
#[derive(Drop)]
pub struct StagePasses<'a> {
    pub messages: &'a mut TakePass,
    pub bytes: &'a mut TakePass,
    pub dispatch: &'a mut TakePass,
}
