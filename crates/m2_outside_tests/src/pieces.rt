//! Bytes without a pattern, passed in pieces of any length.

use crate::socket_ends::{A_WHILE, Linked, ROUNDS, read, write};
use m2_fabric::{End, EndRead, EndWrite, Port};
use std::alloc::Global;
use std::process::Abort;
use std::thread;
use std::thread::Threads;

/// The longest piece, in bytes.
const LONGEST_PIECE: usize = 8_192;

/// In words of eight bytes.
pub(crate) const FOUR_MEGABYTES: usize = 500_000;

/// The next of some numbers without a pattern.
fn next_number(state: &mut u64) -> u64 {
    *state = state
        .wrapping_mul(6_364_136_223_846_793_005)
        .wrapping_add(1_442_695_040_888_963_407);
    *state >> 33
}

/// The next length of a piece.
fn next_length(state: &mut u64) -> usize {
    (next_number(state) as usize) % LONGEST_PIECE + 1
}

/// So many words of bytes without a pattern.
pub(crate) fn noise(rt: &impl Abort, alloc: Global, words: usize) -> Vec<u8> {
    let mut state = 1;
    let mut bytes = Vec::new(alloc);
    for _ in 0..words {
        let _ = next_number(&mut state);
        bytes
            .extend_from_slice(&state.to_le_bytes())
            .expect(rt, "memory");
    }
    bytes
}

/// The bytes from a place on, at most so many.
fn part(bytes: &[u8], at: usize, most: usize) -> &[u8] {
    let (_, rest) = bytes.split_at(at.min(bytes.len()));
    let (piece, _) = rest.split_at(most.min(rest.len()));
    piece
}

/// Writes once from a place on, at most so many bytes. How many were written.
pub(crate) fn write_from<E: End>(end: &mut E, bytes: &[u8], at: usize, most: usize) -> usize {
    match write(end, part(bytes, at, most)) {
        EndWrite::Put(n) => n,
        _ => 0,
    }
}

/// Reads once, at most so many bytes. How many were read; none where the end is done or broken.
fn read_some<E: End>(end: &mut E, piece: &mut [u8], most: usize) -> Option<usize> {
    let (piece, _) = piece.split_at_mut(most.min(piece.len()));
    match read(end, piece) {
        EndRead::Got(n) => Some(n),
        EndRead::NotYet => Some(0),
        _ => None,
    }
}

/// The bytes that may be written by now: the last one only once all but one of as many were read. So whoever reads the
/// other side's last byte knows that of its own just the last may be under way.
fn writable(bytes: &[u8], got: usize) -> &[u8] {
    if got.saturating_add(1) >= bytes.len() {
        return bytes;
    }
    let (now, _) = bytes.split_at(bytes.len() - 1);
    now
}

/// Writes all these bytes in pieces of any length, and reads as many, as the other side does at once. Whether it was
/// done. A last read hands on what is unsent, for which there is room then.
fn exchange<P: Port>(port: &mut P, end: &mut P::End, bytes: &[u8], seed: u64) -> bool {
    let mut piece = [0u8; LONGEST_PIECE];
    let mut state = seed;
    let (mut put, mut got) = (0usize, 0usize);
    for _ in 0..ROUNDS {
        if put >= bytes.len() && got >= bytes.len() {
            return read(end, &mut piece) == EndRead::NotYet;
        }
        let wrote = write_from(end, writable(bytes, got), put, next_length(&mut state));
        let Some(read) = read_some(end, &mut piece, next_length(&mut state)) else {
            return false;
        };
        put = put.saturating_add(wrote);
        got = got.saturating_add(read);
        if wrote == 0 && read == 0 && port.poll(A_WHILE).is_err() {
            return false;
        }
    }
    false
}

/// Passes bytes both ways at once, each side on a thread of its own. Whether it was done.
pub(crate) fn exchange_at_once<P: Port + Send, T: Threads>(
    threads: &T,
    link: &mut Linked<P>,
    there: &[u8],
    back: &[u8],
) -> bool
where
    P::End: Send,
{
    let (mut done, mut other_done) = (false, false);
    thread::join_mut(
        threads,
        &mut || done = exchange(&mut link.opening, &mut link.opener, there, 3),
        &mut || other_done = exchange(&mut link.accepting, &mut link.acceptor, back, 4),
    );
    done && other_done
}
