//! The nodes and links of generated load.

ghost use Rattle.std.specs.Prelude.{◌≡◌, ◌<◌, ◌∷◌, [], true, false, length, IfOk, OnOk};
ghost use Rattle.std.specs.List.{list_any};
ghost use Rattle.m2_scenario.specs.Word.{is_name};
ghost use Rattle.m2_scenario.specs.Draft.{is_named, is_at, are_joined, with_node, with_link};
ghost use Rattle.m2_scenario.specs.Valid.{IsLink, HasCenters, HasMsgr2};
ghost use Rattle.m2_scenario.specs.Cluster.{osd, osds, peers, all_pairs};

use crate::{Draft, Link, Name, Node};
use m2_addr::Addr;
use m2_bytes::NoMemory;
use m2_policy::lossless_peer;
use std::alloc::Global;

/// Ceph's number of an entity that is an osd.
const OSD: u8 = 4;

/// 127.0.0.1
const LOOPBACK: u32 = 2_130_706_433;

/// The kind that each node dispatches at once.
const FAST_KIND: u16 = 1;

/// How many bytes of messages each node may hold.
const THROTTLE: u64 = 65_536;

/// A draft of the nodes and links alone.
pub(crate) fn cluster(alloc: Global) -> Result<Draft, NoMemory>
    ensures { IfOk result (λ d. d ≡ record { nodes = osds; links = all_pairs; lines = []; limit = None }) }
{
    let mut draft = Draft::empty(alloc);
    push_osds(alloc, &mut draft)?;
    push_pairs(&mut draft)?;
    Ok(draft)
}

fn push_osds(alloc: Global, draft: &mut Draft) -> Result<(), NoMemory>
    requires { draft.old.nodes ≡ [] }
    ensures { OnOk result (draft.new ≡ record draft.old { nodes = osds }) }
{
    push_osd(alloc, draft, b"n0", 7000, 1)?;
    push_osd(alloc, draft, b"n1", 7001, 2)?;
    push_osd(alloc, draft, b"n2", 7002, 3)?;
    push_osd(alloc, draft, b"n3", 7003, 4)
}

fn push_osd(
    alloc: Global,
    draft: &mut Draft,
    name: &[u8],
    port: u16,
    nonce: u32,
) -> Result<(), NoMemory>
    requires few { length draft.old.nodes < 4 }
    requires name { is_name name.now ≡ true }
    requires names { list_any (is_named name.now) draft.old.nodes ≡ false }
    requires sockets { list_any (is_at (osd name.now port nonce).at) draft.old.nodes ≡ false }
    ensures { OnOk result (draft.new ≡ with_node draft.old (osd name.now port nonce)) }
{
    let node = osd(alloc, name, port, nonce)?;
    draft.push_node(alloc, node)
}

fn osd(alloc: Global, name: &[u8], port: u16, nonce: u32) -> Result<Node, NoMemory>
    requires { is_name name.now ≡ true }
    ensures value { IfOk result (λ n. n ≡ osd name.now port nonce) }
    ensures centers { IfOk result HasCenters }
    ensures msgr2 { IfOk result HasMsgr2 }
{
    let at = Addr {
        kind: Addr::MSGR2,
        nonce,
        ip: LOOPBACK,
        port,
    };
    let mut node = Node::plain(Name::of(alloc, name)?, OSD, at);
    node.fast.add(FAST_KIND);
    node.throttle = THROTTLE;
    Ok(node)
}

fn push_pairs(draft: &mut Draft) -> Result<(), NoMemory>
    requires nodes { length draft.old.nodes ≡ 4 }
    requires links { draft.old.links ≡ [] }
    ensures { OnOk result (draft.new ≡ record draft.old { links = all_pairs }) }
{
    push_pair(draft, 0, 1)?;
    push_pair(draft, 0, 2)?;
    push_pair(draft, 0, 3)?;
    push_pair(draft, 1, 2)?;
    push_pair(draft, 1, 3)?;
    push_pair(draft, 2, 3)
}

fn push_pair(draft: &mut Draft, a: u32, b: u32) -> Result<(), NoMemory>
    requires nodes { length draft.old.nodes ≡ 4 }
    requires order { a < b }
    requires within { b < 4 }
    requires few { length draft.old.links < 6 }
    requires first { are_joined draft.old.links a b ≡ false }
    ensures { OnOk result (draft.new ≡ with_link draft.old (peers a b)) }
{
    draft.push_link(Link {
        a,
        b,
        of_a: lossless_peer(),
        of_b: lossless_peer(),
    })
}
