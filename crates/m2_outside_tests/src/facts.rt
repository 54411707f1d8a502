//! What sockets of every kind do. Each is asked of a fabric and an address at which nobody listens.

use crate::pieces::{exchange_at_once, write_from};
use crate::socket_ends::{
    A_WHILE, ROUNDS, accepted, are_of_one_socket, connected, link_up, only_port, passed, read,
    read_next, write,
};
use m2_addr::Addr;
use m2_bytes::Items;
use m2_fabric::{Connect, End, EndRead, EndWrite, Fabric, Port, Taken};
use std::alloc::Global;
use std::fs;
use std::process::Abort;
use std::rt::Files;
use std::thread::Threads;
use std::time::{Clock, Duration, Instant};

/// Whether bytes pass there and back at once.
pub(crate) fn bytes_pass_both_ways<F: Fabric, R: Threads + Abort>(
    rt: &R,
    fabric: &mut F,
    at: &Addr,
    there: &[u8],
    back: &[u8],
) -> bool
where
    F::Port: Send,
    <F::Port as Port>::End: Send,
{
    let mut link = link_up(rt, fabric, at);
    let done = exchange_at_once(rt, &mut link, there, back);
    let all = passed(&link.opener, &link.acceptor, there);
    let all_back = passed(&link.acceptor, &link.opener, back);
    done && all && all_back && are_of_one_socket(&link.opener, &link.acceptor)
}

/// Reads until a read answers no bytes. What it answered.
fn read_up<P: Port>(port: &mut P, end: &mut P::End, piece: &mut [u8]) -> EndRead {
    for _ in 0..ROUNDS {
        match read_next(port, end, piece, A_WHILE) {
            EndRead::Got(_) => {}
            answer => return answer,
        }
    }
    EndRead::NotYet
}

/// How many bytes an end writes before it closes: so many a socket of the system takes at once.
const BEFORE_A_CLOSE: usize = 30_000;

/// Whether what an end writes before it closes is read at the other to its end, and no fault counted.
pub(crate) fn what_was_written_before_a_close_is_read<F: Fabric>(
    rt: &impl Abort,
    fabric: &mut F,
    at: &Addr,
    bytes: &[u8],
) -> bool {
    let mut link = link_up(rt, fabric, at);
    let mut piece = [0u8; 3_000];
    let count = write_from(&mut link.opener, bytes, 0, BEFORE_A_CLOSE);
    link.opener.close();
    let last = read_up(&mut link.accepting, &mut link.acceptor, &mut piece);
    let (wrote, _) = bytes.split_at(count.min(bytes.len()));
    let all = passed(&link.opener, &link.acceptor, wrote);
    count > 0 && all && last == EndRead::Ended && link.acceptor.faults() == 0
}

/// Whether nobody waits for an accept.
fn accepts_nobody<P: Port>(port: &mut P) -> bool {
    matches!(port.accept(), Taken::NotYet) && port.quiet()
}

/// Whether a connect where nobody listens fails and is counted, and nobody waits for an accept then.
pub(crate) fn a_connect_where_nobody_listens_fails<F: Fabric>(
    rt: &impl Abort,
    fabric: &mut F,
    at: &Addr,
) -> bool {
    let mut port = only_port(rt, fabric, 7);
    let failed = matches!(port.connect(at), Connect::Failed);
    failed && port.missed() == 1 && port.made().is_empty() && accepts_nobody(&mut port)
}

/// Whether of two ports of a node that listens the first alone accepts.
fn only_the_first_accepts<P: Port>(
    rt: &impl Abort,
    first: &mut P,
    second: &mut P,
    at: &Addr,
) -> bool {
    let opener = connected(rt, second, at);
    let alone = accepts_nobody(second);
    let acceptor = accepted(rt, first);
    alone && are_of_one_socket(&opener, &acceptor)
}

/// Whether a node that listens, was split and was gathered accepts at the first of its next two ports, and nobody else
/// can listen there.
pub(crate) fn a_node_that_was_gathered_accepts_again<F: Fabric>(
    rt: &impl Abort,
    alloc: Global,
    fabric: &mut F,
    at: &Addr,
) -> bool {
    fabric.listen(0, at).expect(rt, "a listener");
    let ports = fabric.split(0, 1).expect(rt, "memory");
    fabric.gather(0, ports, Items::empty(alloc));
    let taken = fabric.listen(1, at).is_err();
    let mut ports = fabric.split(0, 2).expect(rt, "memory");
    let mut second = ports.pop().expect(rt, "a port");
    let mut first = ports.pop().expect(rt, "a port");
    taken && only_the_first_accepts(rt, &mut first, &mut second, at)
}

/// The processor time of this thread so far, in nanoseconds.
fn processor_time<R: Files + Alloc + Abort>(rt: &R) -> u64 {
    let text = fs::read_to_string(rt, "/proc/thread-self/schedstat").expect(rt, "a file");
    let word = text.split_whitespace().next().expect(rt, "a word");
    word.parse::<u64>().expect(rt, "a number")
}

/// Whether a port where nothing happens waits four times for 50 milliseconds, and the processor works less
/// than 10 milliseconds in that time.
fn waits_idly<P: Port, R: Files + Alloc + Clock + Abort>(rt: &R, port: &mut P) -> bool {
    let before = processor_time(rt);
    let start = Instant::now(rt).expect(rt, "a clock");
    for _ in 0..4 {
        port.poll(50).expect(rt, "a wait");
    }
    let took = start.elapsed(rt).expect(rt, "a clock");
    let used = processor_time(rt).saturating_sub(before);
    took >= Duration::from_millis(190) && used < 10_000_000
}

/// Whether waiting takes time and no processor.
pub(crate) fn waiting_takes_no_processor<F: Fabric, R: Files + Alloc + Clock + Abort>(
    rt: &R,
    fabric: &mut F,
    at: &Addr,
) -> bool {
    let mut link = link_up(rt, fabric, at);
    let nothing = read(&mut link.opener, &mut [0u8; 1]) == EndRead::NotYet;
    // that a socket can be written is told once
    link.opening.poll(0).expect(rt, "a wait");
    nothing && waits_idly(rt, &mut link.opening)
}

/// Whether a byte that is written ends the wait of the other side's port, which would last twenty seconds, and a close
/// the next one.
pub(crate) fn what_comes_ends_a_wait<F: Fabric, R: Clock + Abort>(
    rt: &R,
    fabric: &mut F,
    at: &Addr,
) -> bool {
    let mut link = link_up(rt, fabric, at);
    let start = Instant::now(rt).expect(rt, "a clock");
    let mut byte = [0u8; 1];
    let put = write(&mut link.opener, &[7]) == EndWrite::Put(1);
    let nothing = read(&mut link.opener, &mut byte) == EndRead::NotYet; // it hands the byte on
    let got = read_next(&mut link.accepting, &mut link.acceptor, &mut byte, 20_000);
    link.opener.close();
    let ended = read_next(&mut link.accepting, &mut link.acceptor, &mut byte, 20_000);
    let took = start.elapsed(rt).expect(rt, "a clock");
    let told = got == EndRead::Got(1) && ended == EndRead::Ended;
    put && nothing && told && took < Duration::from_millis(10_000)
}

/// Whether a connect ends the wait of the port where it arrives, which would last twenty seconds.
pub(crate) fn a_connect_ends_a_wait<F: Fabric, R: Clock + Abort>(
    rt: &R,
    fabric: &mut F,
    at: &Addr,
) -> bool {
    fabric.listen(0, at).expect(rt, "a listener");
    let mut accepting = only_port(rt, fabric, 0);
    let mut opening = only_port(rt, fabric, 1);
    let nobody = accepts_nobody(&mut accepting);
    let start = Instant::now(rt).expect(rt, "a clock");
    let opener = connected(rt, &mut opening, at);
    accepting.poll(20_000).expect(rt, "a wait");
    let took = start.elapsed(rt).expect(rt, "a clock");
    let acceptor = accepted(rt, &mut accepting);
    nobody && are_of_one_socket(&opener, &acceptor) && took < Duration::from_millis(10_000)
}
