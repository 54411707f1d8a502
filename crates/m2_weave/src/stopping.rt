//! Where an order stops: the byte that the other end hasn't written.

ghost use Rattle.std.specs.Prelude.{◌≡◌, ◌+◌, ◌<◌, ◌^◌, length, map, take, nat_lt, if◌then◌else◌, slice_get, IfOk};
ghost use Rattle.m2_weave.specs.Rule.{first_unfit, unfit_read};
ghost use Rattle.m2_weave.specs.Stops.{first_stop, unfit_next};
ghost use Rattle.m2_weave.specs.Table.{woven_of};
ghost use Rattle.m2_weave.specs.Strands.{begun_at, has_opened, opens, place_of, read_by, read_by_halves, same_side, strand_now, total, written_at, written_by, written_in};

use crate::strand::{Strand, StrandItem};
use crate::table::{SocketTable, got_at, piece, place_in, put_at};
use crate::unfit::{Unfit, Why};
use m2_bytes::NoMemory;
use m2_fabric::SocketId;
use m2_journal::Entry;

/// The sum; a sum above 2^64 - 1 is answered as for want of memory.
pub(crate) fn plus(a: u64, b: u64) -> Result<u64, NoMemory>
    ensures { IfOk result (λ n. n ≡ a + b) }
{
    if b > u64::MAX - a {
        return Err(NoMemory);
    }
    Ok(a + b)
}

/// What an item has read on a socket.
fn read_by(item: StrandItem, k: &SocketId) -> u64
    ensures { result ≡ read_by k.now item }
{
    if let StrandItem::Noted(Entry::Read { socket, count }) = item {
        if k.is_same(&socket) {
            return u64::from(count);
        }
    }
    0
}

/// What an item has written on a socket.
fn written_by(item: StrandItem, k: &SocketId) -> u64
    ensures { result ≡ written_by k.now item }
{
    if let StrandItem::Noted(Entry::Wrote { socket, count }) = item {
        if k.is_same(&socket) {
            return u64::from(count);
        }
    }
    0
}

/// What the first so many items of a strand have read on a socket.
fn read_on(s: &Strand<'_>, count: usize, k: &SocketId) -> Result<u64, NoMemory>
    ensures { IfOk result (λ m. m ≡ total (read_by k.now) (take count (strand_now s.now).items)) }
{
    let mut sum = 0;
    let mut left = s.items();
    for n in 0..count.min(s.len()) {
        sum = plus(sum, read_by(left.next(), k))?;
    }
    Ok(sum)
}

/// What the first so many items of a strand have written on a socket.
fn written_on(s: &Strand<'_>, count: usize, k: &SocketId) -> Result<u64, NoMemory>
    ensures { IfOk result (λ m. m ≡ total (written_by k.now) (take count (strand_now s.now).items)) }
{
    let mut sum = 0;
    let mut left = s.items();
    for n in 0..count.min(s.len()) {
        sum = plus(sum, written_by(left.next(), k))?;
    }
    Ok(sum)
}

/// Whether an item opened the socket.
fn opens(item: StrandItem, k: &SocketId) -> bool
    ensures { result ≡ opens k.now item }
{
    if let StrandItem::Noted(Entry::Opened { socket }) = item {
        return k.is_same(&socket);
    }
    false
}

/// Whether an item of a strand opened the socket.
fn has_opened(s: &Strand<'_>, k: &SocketId) -> bool
    ensures { result ≡ has_opened (strand_now s.now) k.now }
{
    let mut left = s.items();
    for n in 0..s.len() {
        if opens(left.next(), k) {
            return true;
        }
    }
    false
}

/// The first of these bytes, read at an end from a place on, that isn't the one written there so far.
fn first_unfit(
    socket: &SocketId,
    opener: bool,
    put: &[u8],
    written: u64,
    from: u64,
    bytes: &[u8],
) -> Option<Unfit>
    requires { from + length bytes.now < 2 ^ 64 }
    ensures { result ≡ first_unfit (record { socket = socket.now; opener = opener })
        (λ place. if nat_lt place written then slice_get put.now place else None) from bytes.now }
{
    for i in 0..bytes.len() {
        let place = from + i as u64;
        let got = bytes[i];
        let why = match byte_at(put, written, place) {
            None => Why::Beyond { got },
            Some(put) => {
                if got == put {
                    continue;
                }
                Why::Differs { got, put }
            }
        };
        return Some(Unfit {
            socket: *socket,
            opener,
            place,
            why,
        });
    }
    None
}

/// The byte at a place, if it is one of the first so many.
fn byte_at(put: &[u8], written: u64, place: u64) -> Option<u8>
    ensures { result ≡ (if nat_lt place written then slice_get put.now place else None) }
{
    if place < written {
        put.get(place as usize).copied()
    } else {
        None
    }
}

/// What the first so many items of a strand have written at an end.
fn written_in(s: &Strand<'_>, n: usize, k: &SocketId, opener: bool) -> Result<u64, NoMemory>
    ensures { IfOk result (λ m. m ≡ total (written_in (record { socket = k.now; opener = opener }) (strand_now s.now)) (take n (strand_now s.now).items)) }
{
    let is_opener = has_opened(s, k);
    if is_same_side(is_opener, opener) {
        return written_on(s, n, k);
    }
    Ok(0)
}

/// Whether both are of the opener's side, or neither is.
fn is_same_side(a: bool, b: bool) -> bool
    ensures { result ≡ same_side a b }
{
    if a { b } else { !b }
}

/// What the first items of all strands, so many of each, have written at an end.
fn written_at(
    strands: &[Strand<'_>],
    at: &[usize],
    k: &SocketId,
    opener: bool,
) -> Result<u64, NoMemory>
    requires count { length at.now ≡ length strands.now }
    ensures { IfOk result (λ n. n ≡ written_at (map strand_now strands.now) at.now (record { socket = k.now; opener = opener })) }
{
    let mut sum = 0;
    for j in 0..strands.len() {
        sum = plus(sum, written_in(&strands[j], at[j], k, opener)?)?;
    }
    Ok(sum)
}

/// What a half has read on a socket; of a journal nothing.
fn half_read(s: &Strand<'_>, k: &SocketId) -> Result<u64, NoMemory>
    ensures { IfOk result (λ n. n ≡ (if (strand_now s.now).of_half then total (read_by k.now) (strand_now s.now).items else 0)) }
{
    if s.is_half() {
        return read_on(s, s.len(), k);
    }
    Ok(0)
}

/// What halves have read on a socket.
fn halves_read(strands: &[Strand<'_>], k: &SocketId) -> Result<u64, NoMemory>
    ensures { IfOk result (λ n. n ≡ read_by_halves (map strand_now strands.now) k.now) }
{
    let mut sum = 0;
    for s in strands {
        sum = plus(sum, half_read(s, k)?)?;
    }
    Ok(sum)
}

/// Where a strand's reads begin on a socket.
fn begun_at(strands: &[Strand<'_>], s: &Strand<'_>, k: &SocketId) -> Result<u64, NoMemory>
    ensures { IfOk result (λ n. n ≡ begun_at (map strand_now strands.now) (strand_now s.now) k.now) }
{
    if s.is_half() || has_opened(s, k) {
        return Ok(0);
    }
    halves_read(strands, k)
}

/// The place of the next byte that a strand reads on a socket, after so many of its items.
fn place_of(strands: &[Strand<'_>], s: &Strand<'_>, n: usize, k: &SocketId) -> Result<u64, NoMemory>
    ensures { IfOk result (λ m. m ≡ place_of (map strand_now strands.now) (strand_now s.now) n k.now) }
{
    let begun = begun_at(strands, s, k)?;
    let read = read_on(s, n, k)?;
    plus(begun, read)
}

/// The item of a strand behind so many; none where there is no such item.
fn item_at(s: &Strand<'_>, place: usize) -> Option<StrandItem>
    ensures { result ≡ slice_get (strand_now s.now).items place }
{
    if place >= s.len() {
        return None;
    }
    let mut left = s.items();
    for n in 0..place {
        let _before = left.next();
    }
    Some(left.next())
}

/// What is wrong with the next item of a strand after so many, if it is a read.
fn unfit_next(
    strands: &[Strand<'_>],
    sockets: &SocketTable<'_>,
    at: &[usize],
    s: &Strand<'_>,
    n: usize,
) -> Result<Option<Unfit>, NoMemory>
    requires count { length at.now ≡ length strands.now }
    ensures { IfOk result (λ u. u ≡ unfit_next (woven_of strands.now sockets.now) at.now (strand_now s.now) n) }
{
    match item_at(s, n) {
        Some(StrandItem::Noted(Entry::Read { socket, count })) => {
            unfit_read(strands, sockets, at, s, n, &socket, count)
        }
        _ => Ok(None),
    }
}

/// What is wrong with a read of so many bytes on a socket, behind so many items of a strand.
fn unfit_read(
    strands: &[Strand<'_>],
    sockets: &SocketTable<'_>,
    at: &[usize],
    s: &Strand<'_>,
    n: usize,
    socket: &SocketId,
    count: u32,
) -> Result<Option<Unfit>, NoMemory>
    requires count { length at.now ≡ length strands.now }
    ensures { IfOk result (λ u. u ≡ unfit_read (woven_of strands.now sockets.now) at.now (strand_now s.now) n socket.now count) }
{
    let opener = has_opened(s, socket);
    let from = place_of(strands, s, n, socket)?;
    let place = place_in(sockets, socket);
    if place >= sockets.len() {
        return Ok(None);
    }
    let bytes = piece(
        got_at(sockets, place, opener),
        from as usize,
        count as usize,
    );
    let put = put_at(sockets, place, !opener);
    let written = written_at(strands, at, socket, !opener)?;
    Ok(first_unfit(socket, opener, put, written, from, bytes))
}

/// Behind so many items of each strand, as [`weave`](crate::weave) tells them: the byte at which the first
/// strand stands that stands at a read which may not come; none where each strand that isn't at its end
/// waits for a judgement, or for an ask to be handed on, which tidy strands don't
/// ([`tidy_stops_are_reads`](crate::tidy_stops_are_reads)). It goes through the items once, and once more
/// for each such strand. Counts above 2^64 - 1 are answered as for want of memory.
pub fn first_stop(
    strands: &[Strand<'_>],
    sockets: &SocketTable<'_>,
    at: &[usize],
) -> Result<Option<Unfit>, NoMemory>
    requires count { length at.now ≡ length strands.now }
    ensures { IfOk result (λ u. u ≡ first_stop (woven_of strands.now sockets.now) at.now (map strand_now strands.now) at.now) }
{
    for j in 0..strands.len() {
        if let Some(found) = unfit_next(strands, sockets, at, &strands[j], at[j])? {
            return Ok(Some(found));
        }
    }
    Ok(None)
}
