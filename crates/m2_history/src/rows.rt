//! Sockets with the bytes of both ends, from the ends of both sides.

ghost use Rattle.std.specs.Prelude.{◌≡◌, ◌++◌, map, if◌then◌else◌, ◌∷◌, [], IfOk, OnOk};
ghost use Rattle.m2_history.specs.Ends.{end_now};
ghost use Rattle.m2_history.specs.Sockets.{AreEndsOf, bytes_now, bytes_of_end, bytes_on, row_by, side_of};
ghost use Rattle.m2_history.specs.Woven.{EndNow, row_now, rows_of};
ghost use Rattle.m2_weave.specs.Strands.{same_side};

use crate::parts::EndPart;
use m2_bytes::NoMemory;
use m2_fabric::SocketId;
use m2_weave::{EndBytes, SocketBytes, SocketNames};
use std::alloc::Global;

/// The ends of one side of each socket, its openers' or its acceptors', each found at once.
#[derive(Drop)]
pub(crate) struct SideEnds<'a> {
    bytes: Vec<EndBytes<'a>>,
    names: SocketNames,
}

/// Whether both are of the opener's side, or neither is.
fn is_same_side(a: bool, b: bool) -> bool
    ensures { result ≡ same_side a b }
{
    if a { b } else { !b }
}

/// Appends the socket and the bytes of an end, if it is of that side.
fn add_end<'a>(
    names: &mut Vec<SocketId>,
    bytes: &mut Vec<EndBytes<'a>>,
    e: &EndPart<'a>,
    opener: bool,
) -> Result<(), NoMemory>
    ensures names { OnOk result (names.new.items ≡ names.old.items ++ map (λ (x : EndNow). x.socket) (side_of opener (end_now e.now ∷ []))) }
    ensures bytes { OnOk result (map bytes_now bytes.new.items ≡ map bytes_now bytes.old.items ++ map bytes_of_end (side_of opener (end_now e.now ∷ []))) }
{
    if is_same_side(opener, e.opener) {
        names.push(e.socket)?;
        bytes.push(EndBytes {
            got: e.log.got.as_slice(),
            put: e.log.put.as_slice(),
        })?;
    }
    Ok(())
}

/// The ends of that side.
fn side_of<'a>(alloc: Global, ends: &[EndPart<'a>], opener: bool) -> Result<SideEnds<'a>, NoMemory>
    ensures { IfOk result (AreEndsOf opener (map end_now ends.now)) }
{
    let mut names = Vec::new(alloc);
    let mut bytes = Vec::new(alloc);
    for e in ends {
        add_end(&mut names, &mut bytes, e, opener)?;
    }
    Ok(SideEnds {
        bytes,
        names: SocketNames::of(alloc, names)?,
    })
}

/// The bytes of the first such end of a socket, or none.
fn bytes_on<'a>(side: &SideEnds<'a>, k: &SocketId) -> EndBytes<'a>
    ensures { bytes_now result ≡ bytes_on side.now k.now }
{
    match side.bytes.get(side.names.place(k)) {
        Some(bytes) => *bytes,
        None => EndBytes { got: &[], put: &[] },
    }
}

/// The socket of an end, with the bytes of both its ends.
fn row_in<'a>(openers: &SideEnds<'a>, acceptors: &SideEnds<'a>, e: &EndPart<'a>) -> SocketBytes<'a>
    ensures { row_now result ≡ row_by openers.now acceptors.now (end_now e.now) }
{
    SocketBytes {
        socket: e.socket,
        opener: bytes_on(openers, &e.socket),
        acceptor: bytes_on(acceptors, &e.socket),
    }
}

/// A row for each end.
pub(crate) fn rows_of<'a>(
    alloc: Global,
    ends: &[EndPart<'a>],
) -> Result<Vec<SocketBytes<'a>>, NoMemory>
    ensures { IfOk result (λ v. map row_now v.items ≡ rows_of (map end_now ends.now)) }
{
    let openers = side_of(alloc, ends, true)?;
    let acceptors = side_of(alloc, ends, false)?;
    let mut rows = Vec::with_capacity(alloc, ends.len())?;
    for e in ends {
        rows.push(row_in(&openers, &acceptors, e))?;
    }
    Ok(rows)
}
