//! Two nodes, a socket between them, and calls of its ends that are always allowed.

use m2_addr::Addr;
use m2_fabric::{Connect, End, EndRead, EndWrite, Fabric, Port, Taken};
use std::process::Abort;

/// 127.0.0.1
const LOOPBACK: u32 = 0x7f00_0001;

/// The longest wait for something that another thread does, in milliseconds.
pub(crate) const A_WHILE: u32 = 10;

/// How often a call is made again at most.
pub(crate) const ROUNDS: u32 = 1_000_000;

/// An address on this machine.
pub(crate) fn here(port: u16) -> Addr {
    Addr {
        kind: Addr::MSGR2,
        nonce: 1,
        ip: LOOPBACK,
        port,
    }
}

/// The only port of a node.
pub(crate) fn only_port<F: Fabric>(rt: &impl Abort, fabric: &mut F, node: u32) -> F::Port {
    let mut ports = fabric.split(node, 1).expect(rt, "memory");
    ports.pop().expect(rt, "a port")
}

/// The opener's end of a new socket.
pub(crate) fn connected<P: Port>(rt: &impl Abort, port: &mut P, to: &Addr) -> P::End {
    match port.connect(to) {
        Connect::Made(end) => end,
        Connect::Failed | Connect::NoMemory => panic!(rt; "not connected"),
    }
}

/// The acceptor's end of the next socket.
pub(crate) fn accepted<P: Port>(rt: &impl Abort, port: &mut P) -> P::End {
    for _ in 0..ROUNDS {
        match port.accept() {
            Taken::Made(end) => return end,
            Taken::NotYet => port.poll(A_WHILE).expect(rt, "a wait"),
            Taken::Failed | Taken::NoMemory => panic!(rt; "not accepted"),
        }
    }
    panic!(rt; "nobody came")
}

/// Two nodes' ports, and the two ends of a socket between them.
#[derive(Drop)]
pub(crate) struct Linked<P: Port> {
    pub(crate) opening: P,
    pub(crate) accepting: P,
    pub(crate) opener: P::End,
    pub(crate) acceptor: P::End,
}

/// Node 0, which listens at an address, node 1, and a socket between them.
pub(crate) fn link_up<F: Fabric>(rt: &impl Abort, fabric: &mut F, at: &Addr) -> Linked<F::Port> {
    fabric.listen(0, at).expect(rt, "a listener");
    let mut accepting = only_port(rt, fabric, 0);
    let mut opening = only_port(rt, fabric, 1);
    let opener = connected(rt, &mut opening, at);
    let acceptor = accepted(rt, &mut accepting);
    Linked {
        opening,
        accepting,
        opener,
        acceptor,
    }
}

/// Writes once, where the end is open and there is something to write.
pub(crate) fn write<E: End>(end: &mut E, bytes: &[u8]) -> EndWrite {
    if bytes.is_empty() || end.log().closed {
        return EndWrite::Failed;
    }
    end.write(bytes)
}

/// Reads once into a piece, where the end is open and the piece isn't empty.
pub(crate) fn read<E: End>(end: &mut E, piece: &mut [u8]) -> EndRead {
    if piece.is_empty() || end.log().closed {
        return EndRead::Failed;
    }
    end.read(piece)
}

/// What the next read answers that has something to say; it is waited for, so long each time at most.
pub(crate) fn read_next<P: Port>(
    port: &mut P,
    end: &mut P::End,
    piece: &mut [u8],
    most: u32,
) -> EndRead {
    for _ in 0..ROUNDS {
        let answer = read(end, piece);
        if answer != EndRead::NotYet || port.poll(most).is_err() {
            return answer;
        }
    }
    EndRead::NotYet
}

/// Whether two ends are those of the first socket of its four numbers.
pub(crate) fn are_of_one_socket<E: End>(one: &E, other: &E) -> bool {
    one.id() == other.id() && one.id().turn == 1
}

/// Whether one end wrote just these bytes, and the other read just these.
pub(crate) fn passed<E: End>(from: &E, to: &E, bytes: &[u8]) -> bool {
    from.log().put.as_slice() == bytes && to.log().got.as_slice() == bytes
}
