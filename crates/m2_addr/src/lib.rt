//! Addresses of msgr2: their orders, and their exact readers and writers.
//!
//! What it is: [`Addr`], an IPv4 address with its kind and nonce, and the orders of addresses,
//! [`AddrOrder`]; [`AnyAddr`], an address as it is read, also of another family; [`AddrVec`], the addresses of
//! one entity, with its main address. [`read_addr`], [`read_v4`], [`AddrVec::read`] and
//! [`read_main`] read from a [`Reader`](m2_bytes::Reader), [`write_addr`] and [`AddrVec::write`] append to a
//! [`Blob`](m2_bytes::Blob). What it isn't: sockets or names. [`AddrFault`] names each refusal.
//!
//! The format is that of `entity_addr_t` and `entity_addrvec_t` in Ceph's msgr2 documentation;
//! what is refused, and in which order, is this project's profile (docs/PROTOCOL.md).
#![tactic(auto)]

mod addr;
mod fault;
mod laws;
mod reading;
mod vector;
mod writing;

pub use addr::{Addr, AddrOrder, AnyAddr};
pub use fault::AddrFault;
pub use laws::addresses_are_ordered;
pub use reading::{LEAST_LENGTH, MOST_LENGTH, read_addr, read_v4};
pub use vector::{AddrVec, MOST_ADDRESSES, read_main};
pub use writing::write_addr;
