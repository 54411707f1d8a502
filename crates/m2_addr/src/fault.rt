//! Why an address could not be read.

ghost use Rattle.std.specs.Prelude.{◌≡◌};

use m2_bytes::{NoMemory as OutOfMemory, Short as TooShort};
use std::alloc::AllocFailed;
use thiserror::Error;

/// What is wrong with an address or a vector of addresses: the first fault from left to right.
#[derive(Clone, Copy, Debug, PartialEq, Eq, Error)]
pub enum AddrFault {
    /// The input ends inside the address.
    #[error("the input ends inside an address")]
    Short,
    /// A marker isn't the expected one, the version is 0, or the compat isn't 1.
    #[error("an address has a wrong marker, version or compat")]
    BadMarker,
    /// The length of an address doesn't fit what it holds, or is above
    /// [`MOST_LENGTH`](crate::MOST_LENGTH).
    #[error("an address has a wrong length")]
    BadLength,
    /// A well-formed address is no IPv4 address.
    #[error("the address is no IPv4 address")]
    NotIpv4,
    /// A vector has no IPv4 address of kind msgr2.
    #[error("no address is an msgr2 address")]
    NoMsgr2,
    /// A vector has more than [`MOST_ADDRESSES`](crate::MOST_ADDRESSES).
    #[error("more than 64 addresses")]
    TooMany,
    /// Memory ran out.
    #[error("no memory")]
    NoMemory,
}

impl From<TooShort> for AddrFault {
    ghost use Rattle.m2_addr.specs.declared.fault.AddrFault.TheVariants.{Short};

    ghost from_gives = { λ _ e. e ≡ Short };

    fn from(_e: TooShort) -> AddrFault {
        AddrFault::Short
    }
}

impl From<OutOfMemory> for AddrFault {
    ghost use Rattle.m2_addr.specs.declared.fault.AddrFault.TheVariants.{NoMemory};

    ghost from_gives = { λ _ e. e ≡ NoMemory };

    fn from(_e: OutOfMemory) -> AddrFault {
        AddrFault::NoMemory
    }
}

impl<T: Drop> From<AllocFailed<T>> for AddrFault {
    ghost use Rattle.m2_addr.specs.declared.fault.AddrFault.TheVariants.{NoMemory};

    ghost from_gives = { λ _ e. e ≡ NoMemory };

    fn from(_e: AllocFailed<T>) -> AddrFault {
        AddrFault::NoMemory
    }
}
