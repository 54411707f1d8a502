//! Sockets with the bytes of both ends, and where each stands by its name.

ghost use Rattle.std.specs.Prelude.{◌≡◌, ◌<◌, true, length, drop, take, slice_get, IfOk, OnOk};
ghost use Rattle.m2_fabric.specs.Sockets.{is_among};
ghost use Rattle.m2_weave.specs.Counting.{place_in};
ghost use Rattle.m2_weave.specs.Table.{HasRisen, five_of, got_at, names_of, put_at};

use m2_bytes::NoMemory;
use m2_fabric::SocketId;
use std::alloc::Global;
use std::collections::HashMap;
use std::marker::Model;

/// What an end of a socket has read and what it has written, from its log.
#[derive(Clone, Copy, Debug)]
pub struct EndBytes<'a> {
    pub got: &'a [u8],
    pub put: &'a [u8],
}

/// A socket with the bytes of its two ends: nothing of an end that nobody has.
#[derive(Clone, Copy, Debug)]
pub struct SocketBytes<'a> {
    pub socket: SocketId,
    pub opener: EndBytes<'a>,
    pub acceptor: EndBytes<'a>,
}

/// A socket's name as a key: its five numbers.
type SocketKey = (u32, u16, u32, u16, u32);

/// Names of sockets, each found at once; of a name that stands twice the first. Contracts see the list.
#[derive(Drop)]
pub struct SocketNames {
    names: Vec<SocketId>,
    places: HashMap<SocketKey, usize>,
}

impl Model for SocketNames {
    ghost use Rattle.std.specs.Prelude.{List};
    ghost use Rattle.m2_fabric.specs.declared.socket.SocketId.{SocketId};
    ghost use Rattle.m2_weave.specs.Table.{ArePlaces};

    ghost Value = { List SocketId };

    ghost view = { λ t. t.names.items };

    ghost invariant = { λ t. ArePlaces t.places.entries t.names.items };
}

impl SocketNames {
    /// These names.
    pub fn of(alloc: Global, names: Vec<SocketId>) -> Result<SocketNames, NoMemory>
        ensures { IfOk result (λ t. t ≡ names.items) }
    {
        let mut places = HashMap::new(alloc);
        let count = names.len();
        for n in 0..count {
            let place = count - 1 - n;
            let key = key_of(&names[place]);
            places.insert(key, place)?;
        }
        Ok(SocketNames { names, places })
    }

    /// How many names there are.
    pub fn len(&self) -> usize
        ensures { result ≡ length self.now }
    {
        self.names.len()
    }

    /// Whether a socket is one of them.
    pub fn has(&self, k: &SocketId) -> bool
        ensures { result ≡ is_among k.now self.now }
    {
        self.places.contains_key(&key_of(k))
    }

    /// The place of a socket among them; their number where it is none of them.
    pub fn place(&self, k: &SocketId) -> usize
        ensures { result ≡ place_in self.now k.now }
    {
        let found = self.places.get(&key_of(k)).copied();
        found.unwrap_or(self.names.len())
    }

    /// Adds to the number of a socket, if it is one of them, where these numbers stand at their places. A
    /// number above 2^64 - 1 is answered as for want of memory.
    pub fn raise(
        &self,
        numbers: &mut Vec<u64>,
        socket: &SocketId,
        amount: u64,
    ) -> Result<(), NoMemory>
        requires count { length numbers.old.items ≡ length self.now }
        ensures count { length numbers.new.items ≡ length self.now }
        ensures risen { OnOk result (HasRisen self.now socket.now amount numbers.old.items numbers.new.items) }
    {
        let place = self.place(socket);
        if place >= self.len() {
            return Ok(());
        }
        let number = numbers[place];
        if amount > u64::MAX - number {
            return Err(NoMemory);
        }
        numbers[place] = number + amount;
        Ok(())
    }
}

/// Sockets with the bytes of both ends, each found by its name at once; of a name that stands twice the
/// first. Contracts see the list.
#[derive(Drop)]
pub struct SocketTable<'a> {
    sockets: &'a [SocketBytes<'a>],
    names: SocketNames,
}

impl<'a> Model for SocketTable<'a> {
    ghost use Rattle.std.specs.Prelude.{◌≡◌, List};
    ghost use Rattle.m2_weave.specs.declared.table.SocketBytes.{SocketBytes};
    ghost use Rattle.m2_weave.specs.Table.{names_of};

    ghost Value = { List SocketBytes };

    ghost view = { λ t. t.sockets.now };

    ghost invariant = { λ t. t.names ≡ names_of t.sockets.now };
}

impl<'a> SocketTable<'a> {
    /// These sockets.
    pub fn of(alloc: Global, sockets: &'a [SocketBytes<'a>]) -> Result<SocketTable<'a>, NoMemory>
        ensures { IfOk result (λ t. t ≡ sockets.now) }
    {
        let names = SocketNames::of(alloc, names_of(alloc, sockets)?)?;
        Ok(SocketTable { sockets, names })
    }

    /// The sockets in order.
    pub fn as_slice(&self) -> &'a [SocketBytes<'a>]
        ensures { result.now ≡ self.now }
    {
        self.sockets
    }

    /// How many sockets there are.
    pub fn len(&self) -> usize
        ensures { result ≡ length self.now }
    {
        self.sockets.len()
    }

    /// Whether a socket is one of them.
    pub fn has(&self, k: &SocketId) -> bool
        ensures { result ≡ is_among k.now (names_of self.now) }
    {
        self.names.has(k)
    }
}

/// The names of these sockets.
fn names_of(alloc: Global, sockets: &[SocketBytes<'_>]) -> Result<Vec<SocketId>, NoMemory>
    ensures { IfOk result (λ v. v.items ≡ names_of sockets.now) }
{
    let mut names = Vec::with_capacity(alloc, sockets.len())?;
    for s in sockets {
        names.push(s.socket)?;
    }
    Ok(names)
}

/// The five numbers of a socket's name.
fn key_of(k: &SocketId) -> SocketKey
    ensures { result ≡ five_of k.now }
{
    (k.from_ip, k.from_port, k.to_ip, k.to_port, k.turn)
}

/// Adds to the number of a socket, if it is in the table. A number above 2^64 - 1 is answered as for want
/// of memory.
pub(crate) fn raise(
    numbers: &mut Vec<u64>,
    sockets: &SocketTable<'_>,
    socket: &SocketId,
    amount: u64,
) -> Result<(), NoMemory>
    requires count { length numbers.old.items ≡ length sockets.now }
    ensures count { length numbers.new.items ≡ length sockets.now }
    ensures risen { OnOk result (HasRisen (names_of sockets.now) socket.now amount numbers.old.items numbers.new.items) }
{
    sockets.names.raise(numbers, socket, amount)
}

/// The place of a socket in the table; the table's length where it isn't there.
pub(crate) fn place_in(sockets: &SocketTable<'_>, k: &SocketId) -> usize
    ensures { result ≡ place_in (names_of sockets.now) k.now }
{
    sockets.names.place(k)
}

/// The place of a socket that is in the table.
pub(crate) fn named_place(sockets: &SocketTable<'_>, k: &SocketId) -> usize
    requires named { is_among k.now (names_of sockets.now) ≡ true }
    ensures place { result ≡ place_in (names_of sockets.now) k.now }
    ensures within { result < length sockets.now }
{
    place_in(sockets, k)
}

/// What an end of a socket of the table has read.
pub(crate) fn got_at<'a>(sockets: &SocketTable<'a>, place: usize, opener: bool) -> &'a [u8]
    requires { place < length sockets.now }
    ensures { result.now ≡ got_at (slice_get sockets.now place) opener }
{
    let s = &sockets.as_slice()[place];
    if opener { s.opener.got } else { s.acceptor.got }
}

/// What it has written.
pub(crate) fn put_at<'a>(sockets: &SocketTable<'a>, place: usize, opener: bool) -> &'a [u8]
    requires { place < length sockets.now }
    ensures { result.now ≡ put_at (slice_get sockets.now place) opener }
{
    let s = &sockets.as_slice()[place];
    if opener { s.opener.put } else { s.acceptor.put }
}

/// So many bytes from a place on, as far as they are there.
pub(crate) fn piece(bytes: &[u8], from: usize, count: usize) -> &[u8]
    ensures { result.now ≡ take count (drop from bytes.now) }
{
    let (_, rest) = bytes.split_at(from.min(bytes.len()));
    let (first, _) = rest.split_at(count.min(rest.len()));
    first
}
