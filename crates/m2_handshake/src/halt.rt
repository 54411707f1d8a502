//! Why a half doesn't go on.

ghost use Rattle.std.specs.Prelude.{◌≡◌};

use crate::fault::HalfFault;
use m2_bytes::NoMemory as OutOfMemory;

/// Why a step of a half ends before it has done something.
#[derive(Clone, Copy, Debug, PartialEq, Eq)]
pub enum Halt {
    /// What was fed is the start of something, or nothing.
    NotYet,
    /// What stands next is wrong.
    Fault(HalfFault),
    /// Memory ran out; nothing has changed.
    NoMemory,
}

impl From<OutOfMemory> for Halt {
    ghost use Rattle.m2_handshake.specs.declared.halt.Halt.TheVariants.{NoMemory};

    ghost from_gives = { λ _ halt. halt ≡ NoMemory };

    fn from(_e: OutOfMemory) -> Halt {
        Halt::NoMemory
    }
}

impl From<HalfFault> for Halt {
    ghost use Rattle.m2_handshake.specs.declared.halt.Halt.TheVariants.{Fault};

    ghost from_gives = { λ fault halt. halt ≡ Fault fault };

    fn from(fault: HalfFault) -> Halt {
        Halt::Fault(fault)
    }
}
