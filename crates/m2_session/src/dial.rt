//! When a side dials.

ghost use Rattle.std.specs.Prelude.{◌≡◌};
ghost use Rattle.m2_session.specs.Dials as dials;

use crate::{Phase, Session};

/// Whether this side is to open a socket, the moment aside: a server never does; in Absent and
/// Standby where something is kept or waits to be written, or a dial is wanted; in Wait always, at
/// the end of the wait.
pub fn dials(s: &Session, waits: bool, wanted: bool) -> bool
    ensures { result ≡ dials.dials s.now waits wanted }
{
    if s.policy.server {
        return false;
    }
    match s.phase {
        Phase::Absent | Phase::Standby => waits || wanted,
        Phase::Wait => true,
        _ => false,
    }
}
