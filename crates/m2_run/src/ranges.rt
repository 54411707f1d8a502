//! What the types of a node and of what is left of it say of them. These functions are for contracts alone.

ghost use Rattle.std.specs.List.{AllByRecursion};
ghost use Rattle.std.specs.Prelude.{◌<◌, ◌^◌};
ghost use Rattle.m2_node.specs.m2_links_go_on.m2_history.Link.{IsWholeHalf};
ghost use Rattle.m2_journal.specs.m2_control.Laws.{HasAddrRanges};
ghost use Rattle.m2_node.specs.m2_links_go_on.Left.{IsSeen};
ghost use Rattle.m2_run.specs.Types.{HasOpenerRanges, IsCenterOfTypes, IsRanged};
ghost use Rattle.m2_trail.specs.Trails.{opener_of, trail_now};

use m2_addr::Addr;
use m2_fabric::{End, Port, SocketId};
use m2_journal::NodeFacts;
use m2_node::{Record, RunCenter};
use m2_trail::{Loose, Trail};

/// It is a center, and its records are records, which are named within the ranges of their types.
pub(crate) fn center_is_of_types<P: Port>(center: &RunCenter<P>)
    ensures { IsCenterOfTypes center.now }
{
    center.is_center();
    are_ranged(center.records());
}

/// These halves are what their bytes make them, and are named within the ranges of their types.
pub(crate) fn halves_are_of_types<E: End>(loose: &[Loose<E>])
    ensures whole { AllByRecursion IsWholeHalf loose.now }
    ensures seen { AllByRecursion IsSeen loose.now }
{
    'halves: for half in loose {
        half_is_of_types(half);
    }
}

/// So is one.
fn half_is_of_types<E: End>(half: &Loose<E>)
    ensures whole { IsWholeHalf half.now }
    ensures seen { IsSeen half.now }
{
    let trail = half.trail();
    let _entity = trail.entity;
    opener_keeps_ranges(&trail.socket);
}

/// The address of a socket's opener keeps the ranges of its types.
fn opener_keeps_ranges(socket: &SocketId)
    ensures { HasAddrRanges (opener_of socket.now) }
{
    let _ip = socket.from_ip;
    let _port = socket.from_port;
}

/// These records are named within the ranges of their types.
fn are_ranged<E: End>(records: &[Record<E>])
    ensures { AllByRecursion IsRanged records.now }
{
    'records: for side in records {
        is_ranged(side);
    }
}

/// So is one.
fn is_ranged<E: End>(side: &Record<E>)
    ensures { IsRanged side.now }
{
    facts_keep_ranges(side.facts());
    let session = side.session();
    address_keeps_ranges(&session.mine);
    address_keeps_ranges(&session.peer);
    openers_keep_ranges(side.trails().as_slice());
}

/// What a node tells its records keeps the ranges of its types.
fn facts_keep_ranges(facts: &NodeFacts)
    ensures entity { facts.now.entity < 2 ^ 8 }
    ensures supports { facts.now.supports < 2 ^ 64 }
    ensures requires_ { facts.now.requires_ < 2 ^ 64 }
{
    let _entity = facts.entity;
    let _supports = facts.supports;
    let _requires = facts.requires_;
}

/// So does an address.
fn address_keeps_ranges(at: &Addr)
    ensures { HasAddrRanges at.now }
{
    let _kind = at.kind;
    let _nonce = at.nonce;
    let _ip = at.ip;
    let _port = at.port;
}

/// So do the openers of these trails.
fn openers_keep_ranges(trails: &[Trail])
    ensures { AllByRecursion (λ t. HasOpenerRanges (trail_now t)) trails.now }
{
    'trails: for trail in trails {
        opener_keeps_ranges(&trail.socket);
    }
}
