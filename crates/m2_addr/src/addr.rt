//! The address of an entity, and the orders of addresses.

ghost use Rattle.std.specs.Prelude.{◌≡◌};
ghost use Rattle.m2_addr.specs.Order.{address_cmp, address_cmp_in, is_below, is_below_in, key_of};

use m2_bytes::Blob;
use std::cmp::Ordering;

/// An IPv4 address of an entity, as `entity_addr_t` has it.
///
/// Addresses are equal where all fields are, and `<` and sorting order them as
/// [`AddrOrder::Numbers`] does.
#[derive(Clone, Copy, Debug, PartialEq, Eq, PartialOrd, Ord, Hash)]
pub struct Addr {
    /// 2 for msgr2, 1 for the legacy protocol; others are kept as they are.
    pub kind: u32,
    /// Tells one run of an entity at this ip and port from another.
    pub nonce: u32,
    /// The four bytes of the address as one big-endian number.
    pub ip: u32,
    pub port: u16,
}

/// In which order addresses stand.
#[derive(Clone, Copy, Debug, PartialEq, Eq)]
pub enum AddrOrder {
    /// By kind, then nonce, then ip, then port, as numbers: this project's profile.
    Numbers,
    /// By kind, then the four bytes of the nonce from the lowest, then port, then ip, as Ceph orders
    /// the bytes of an address.
    Bytes,
}

/// What [`AddrOrder::Bytes`] compares, in its order; the bytes of the nonce from the lowest.
#[derive(Clone, Copy, Debug, PartialEq, Eq, PartialOrd, Ord)]
pub(crate) struct AddrKey {
    kind: u32,
    first: u32,
    second: u32,
    third: u32,
    fourth: u32,
    port: u16,
    ip: u32,
}

fn make_key(a: &Addr) -> AddrKey
    ensures { result ≡ key_of a.now }
{
    AddrKey {
        kind: a.kind,
        first: a.nonce % 256,
        second: a.nonce / 256 % 256,
        third: a.nonce / 65_536 % 256,
        fourth: a.nonce / 16_777_216,
        port: a.port,
        ip: a.ip,
    }
}

/// An address as it is read: an IPv4 address, or the bytes of any other.
#[derive(Debug, Drop)]
pub enum AnyAddr {
    /// An address of family 2 whose socket address has 16 bytes.
    V4(Addr),
    /// Every other well-formed address: its bytes, from the marker to the end.
    Other(Blob),
}

impl Addr {
    /// The kind of an address that speaks msgr2.
    pub const MSGR2: u32 = 2;

    /// How this address and the other are ordered, as `<` and sorting have it: by kind, then
    /// nonce, then ip, then port, as numbers.
    pub fn compare(&self, other: &Addr) -> Ordering
        ensures { result ≡ address_cmp self.now other.now }
    {
        self.cmp(other)
    }

    /// Whether this address is the lower one.
    pub fn is_below(&self, other: &Addr) -> bool
        ensures { result ≡ is_below self.now other.now }
    {
        self < other
    }

    /// How this address and the other are ordered in this order.
    pub fn compare_in(&self, order: AddrOrder, other: &Addr) -> Ordering
        ensures { result ≡ address_cmp_in order self.now other.now }
    {
        match order {
            AddrOrder::Numbers => self.compare(other),
            AddrOrder::Bytes => make_key(self).cmp(&make_key(other)),
        }
    }

    /// Whether this address is the lower one in this order.
    pub fn is_below_in(&self, order: AddrOrder, other: &Addr) -> bool
        ensures { result ≡ is_below_in order self.now other.now }
    {
        self.compare_in(order, other) == Ordering::Less
    }
}
