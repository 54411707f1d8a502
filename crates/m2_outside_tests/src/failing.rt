//! What sockets do where one call is made to fail: that call fails alone and is counted. And where an end is gone.

use crate::socket_ends::{Linked, accepted, connected, here, link_up, only_port, read, write};
use m2_addr::Addr;
use m2_fabric::{Connect, End, EndRead, EndWrite, Fabric, Port, Taken};
use std::process::Abort;

/// Whether of three listens the second fails alone.
pub(crate) fn second_listen_fails<F: Fabric>(fabric: &mut F) -> bool {
    let first = fabric.listen(0, &here(1)).is_ok();
    let second = fabric.listen(1, &here(2)).is_err();
    let third = fabric.listen(1, &here(2)).is_ok();
    first && second && third
}

/// Whether of three connects, of two nodes, the second fails alone and is counted.
pub(crate) fn second_connect_fails<F: Fabric>(rt: &impl Abort, fabric: &mut F) -> bool {
    fabric.listen(0, &here(1)).expect(rt, "a listener");
    let mut one = only_port(rt, fabric, 1);
    let mut other = only_port(rt, fabric, 2);
    let first = connected(rt, &mut one, &here(1));
    let second = matches!(other.connect(&here(1)), Connect::Failed);
    let third = connected(rt, &mut other, &here(1));
    second && one.missed() == 0 && other.missed() == 1 && first.id() != third.id()
}

/// Whether the first accept fails alone and is counted, and loses no socket.
pub(crate) fn first_accept_fails<F: Fabric>(rt: &impl Abort, fabric: &mut F) -> bool {
    fabric.listen(0, &here(1)).expect(rt, "a listener");
    let mut accepting = only_port(rt, fabric, 0);
    let mut opening = only_port(rt, fabric, 1);
    let opener = connected(rt, &mut opening, &here(1));
    let failed = matches!(accepting.accept(), Taken::Failed) && accepting.quiet();
    let acceptor = accepted(rt, &mut accepting);
    failed && accepting.refused() == 1 && acceptor.id() == opener.id()
}

/// Whether the second poll fails alone.
pub(crate) fn second_poll_fails<F: Fabric>(rt: &impl Abort, fabric: &mut F) -> bool {
    let mut port = only_port(rt, fabric, 0);
    let first = port.poll(0).is_ok();
    let second = port.poll(0).is_err();
    first && second && port.poll(0).is_ok()
}

/// Whether of the reads of the first socket that node 1 opens the second fails alone, at the opener's end,
/// and no byte is lost.
pub(crate) fn second_read_fails<F: Fabric>(rt: &impl Abort, fabric: &mut F) -> bool {
    let mut link = link_up(rt, fabric, &here(1));
    let mut byte = [0u8; 1];
    let wrote = write(&mut link.acceptor, &[7, 8]) == EndWrite::Put(2);
    let first = read(&mut link.opener, &mut byte) == EndRead::Got(1);
    let second = read(&mut link.opener, &mut byte) == EndRead::Failed;
    let third = read(&mut link.opener, &mut byte) == EndRead::Got(1);
    let counted = link.opener.faults() == 1 && link.acceptor.faults() == 0;
    let all = link.opener.log().got.as_slice() == [7u8, 8].as_slice();
    wrote && first && second && third && counted && all
}

/// Whether of the writes of the first socket that node 1 opens the first fails alone, at the opener's end;
/// and none of its second socket.
pub(crate) fn first_write_fails<F: Fabric>(rt: &impl Abort, fabric: &mut F) -> bool {
    let mut link = link_up(rt, fabric, &here(1));
    let mut later = connected(rt, &mut link.opening, &here(1));
    let other = write(&mut link.acceptor, &[1]) == EndWrite::Put(1);
    let second_socket = write(&mut later, &[2]) == EndWrite::Put(1);
    let first = write(&mut link.opener, &[3]) == EndWrite::Failed;
    let second = write(&mut link.opener, &[4]) == EndWrite::Put(1);
    let counted = link.opener.faults() == 1 && link.opener.log().put.as_slice() == [4u8].as_slice();
    other && second_socket && first && second && counted
}

/// Lets go of an end.
fn let_go<E: End>(_gone: E) {}

/// Lets go of an end. Whether the other one reads that nothing more will come, and fails to write.
fn is_told<E: End>(gone: E, other: &mut E) -> bool {
    let_go(gone);
    let ended = read(other, &mut [0u8; 1]) == EndRead::Ended;
    let refused = write(other, &[7]) == EndWrite::Failed;
    ended && refused && other.faults() == 1
}

/// Whether an end that is dropped without a close ends the socket for the other one, whichever of the two it is.
pub(crate) fn an_end_that_is_gone_is_told<F: Fabric>(
    rt: &impl Abort,
    fabric: &mut F,
    at: &Addr,
) -> bool {
    let Linked {
        mut opening,
        mut accepting,
        opener,
        mut acceptor,
    } = link_up(rt, fabric, at);
    let mut other_opener = connected(rt, &mut opening, at);
    let other_acceptor = accepted(rt, &mut accepting);
    is_told(opener, &mut acceptor) && is_told(other_acceptor, &mut other_opener)
}
