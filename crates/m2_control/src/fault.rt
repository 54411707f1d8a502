//! Why a control payload could not be read.

ghost use Rattle.std.specs.Prelude.{◌≡◌};
ghost use Rattle.m2_control.specs.Outcome.{raised_as};

use m2_addr::AddrFault;
use m2_bytes::{NoMemory as OutOfMemory, Short as TooShort};
use std::alloc::{AllocError, AllocFailed};
use thiserror::Error;

/// What is wrong with a payload: the first fault from left to right.
#[derive(Clone, Copy, Debug, PartialEq, Eq, Error)]
pub enum ControlFault {
    /// The payload ends inside a field.
    #[error("the payload ends inside a field")]
    Short,
    /// Bytes are left after the last field.
    #[error("bytes are left after the last field")]
    Extra,
    /// A field has a value that isn't allowed; fields count from 1.
    #[error("field {field} has a value that isn't allowed")]
    BadValue { field: u8 },
    /// Frames of this tag aren't negotiated.
    #[error("frames of this tag aren't negotiated")]
    NotNegotiated,
    /// An address or a vector of addresses could not be read.
    #[error("{0}")]
    Address(AddrFault),
    /// Memory ran out.
    #[error("no memory")]
    NoMemory,
}

impl From<TooShort> for ControlFault {
    ghost use Rattle.m2_control.specs.declared.fault.ControlFault.TheVariants.{Short};

    ghost from_gives = { λ _ e. e ≡ Short };

    fn from(_e: TooShort) -> ControlFault {
        ControlFault::Short
    }
}

impl From<OutOfMemory> for ControlFault {
    ghost use Rattle.m2_control.specs.declared.fault.ControlFault.TheVariants.{NoMemory};

    ghost from_gives = { λ _ e. e ≡ NoMemory };

    fn from(_e: OutOfMemory) -> ControlFault {
        ControlFault::NoMemory
    }
}

impl From<AllocError> for ControlFault {
    ghost use Rattle.m2_control.specs.declared.fault.ControlFault.TheVariants.{NoMemory};

    ghost from_gives = { λ _ e. e ≡ NoMemory };

    fn from(_e: AllocError) -> ControlFault {
        ControlFault::NoMemory
    }
}

impl<T: Drop> From<AllocFailed<T>> for ControlFault {
    ghost use Rattle.m2_control.specs.declared.fault.ControlFault.TheVariants.{NoMemory};

    ghost from_gives = { λ _ e. e ≡ NoMemory };

    fn from(_e: AllocFailed<T>) -> ControlFault {
        ControlFault::NoMemory
    }
}

/// Want of memory stays want of memory.
pub(crate) fn raised(fault: AddrFault) -> ControlFault
    ensures { result ≡ raised_as fault }
{
    match fault {
        AddrFault::NoMemory => ControlFault::NoMemory,
        other => ControlFault::Address(other),
    }
}
