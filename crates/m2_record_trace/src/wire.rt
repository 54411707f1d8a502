//! A socket between two sides.

ghost use Rattle.std.specs.Prelude.{◌≡◌};
ghost use Rattle.m2_record_trace.specs.Wires.{flowed_from, with_flowed};

use crate::which::Which;
use m2_fabric::SocketId;

/// A socket between two sides, and how many bytes have flowed on it: from its opener, and to its opener.
#[derive(Clone, Copy, Debug, PartialEq, Eq)]
pub struct Wire {
    pub socket: SocketId,
    pub opener: Which,
    pub ahead: usize,
    pub back: usize,
}

impl Wire {
    /// How many bytes have flowed from this side.
    pub fn flowed(&self, from: Which) -> usize
        ensures { result ≡ flowed_from from self.now }
    {
        match (from, self.opener) {
            (Which::First, Which::First) | (Which::Second, Which::Second) => self.ahead,
            (Which::First, Which::Second) | (Which::Second, Which::First) => self.back,
        }
    }

    /// The same socket, where so many bytes have flowed from this side.
    pub(crate) fn with_flowed(self, from: Which, flowed: usize) -> Wire
        ensures { result ≡ with_flowed from flowed self }
    {
        let mut wire = self;
        match (from, self.opener) {
            (Which::First, Which::First) | (Which::Second, Which::Second) => wire.ahead = flowed,
            (Which::First, Which::Second) | (Which::Second, Which::First) => wire.back = flowed,
        }
        wire
    }
}
