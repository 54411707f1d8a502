//! Whether nodes that have ended rest: nobody waits at a door or on the way to a thread for whom something is to be done.

ghost use Rattle.std.specs.Prelude.{◌≡◌, []};
ghost use Rattle.std.specs.Bool.{OnTrue};
ghost use Rattle.std.specs.List.{AllByRecursion};
ghost use Rattle.m2_fabric.specs.Sockets.{is_among};
ghost use Rattle.m2_run.specs.Opened.{OpenedNow, made_in, made_of_all};
ghost use Rattle.m2_run.specs.Still.{IsAtRest};

use crate::ending::{EndedCenter, Opened};
use m2_fabric::{End, Port, SocketId, is_among};
use m2_trail::Loose;

/// Whether these nodes rest.
pub(crate) fn all_rest<P: Port>(all: &[Opened<'_, P>]) -> bool
    ensures { OnTrue result (AllByRecursion (λ (n : OpenedNow). (n.left.on_way ≡ []) × AllByRecursion (IsAtRest (made_of_all all.now)) n.left.at_door) all.now) }
{
    'nodes: for node in all {
        if !node.left.on_way.is_empty() || !halves_rest(all, node.left.at_door.as_slice()) {
            return false;
        }
    }
    true
}

/// Whether each of these halves at a door rests.
fn halves_rest<P: Port>(all: &[Opened<'_, P>], halves: &[Loose<P::End>]) -> bool
    ensures { OnTrue result (AllByRecursion (IsAtRest (made_of_all all.now)) halves.now) }
{
    'halves: for half in halves {
        if !half_rests(all, half) {
            return false;
        }
    }
    true
}

/// Whether it is closed; or it waits for its peer, which is none of these nodes.
fn half_rests<P: Port>(all: &[Opened<'_, P>], half: &Loose<P::End>) -> bool
    ensures { OnTrue result (IsAtRest (made_of_all all.now) half.now) }
{
    let log = half.end().log();
    log.closed || ((log.dry || log.blocked) && !is_made_by_any(all, &half.id()))
}

/// Whether one of these nodes has opened the socket, or accepted it.
fn is_made_by_any<P: Port>(all: &[Opened<'_, P>], id: &SocketId) -> bool
    ensures { result ≡ is_among id.now (made_of_all all.now) }
{
    'nodes: for node in all {
        if is_made_in(node.centers.as_slice(), id) {
            return true;
        }
    }
    false
}

/// Whether the port of one of these centers made it.
fn is_made_in<P: Port>(centers: &[EndedCenter<'_, P>], id: &SocketId) -> bool
    ensures { result ≡ is_among id.now (made_in centers.now) }
{
    'centers: for center in centers {
        if is_among(id, center.made.as_slice()) {
            return true;
        }
    }
    false
}
