//! What the types of nodes say of them. These functions are for contracts alone.

ghost use Rattle.std.specs.List.{AllByRecursion};
ghost use Rattle.m2_journal.specs.m2_control.Laws.{HasAddrRanges};
ghost use Rattle.m2_script.specs.Nodes.{HasNodeRanges};

use m2_addr::Addr;
use m2_scenario::Node;

/// Each of these nodes keeps the ranges of its types.
pub(crate) fn keep_ranges(nodes: &[Node])
    ensures { AllByRecursion HasNodeRanges nodes.now }
{
    'nodes: for node in nodes {
        keeps_ranges(node);
    }
}

/// So does one.
fn keeps_ranges(node: &Node)
    ensures { HasNodeRanges node.now }
{
    address_keeps_ranges(&node.at);
    let _entity = node.entity;
    let _supports = node.supports;
    let _requires = node.requires_;
}

/// So does its address.
fn address_keeps_ranges(at: &Addr)
    ensures { HasAddrRanges at.now }
{
    let _kind = at.kind;
    let _nonce = at.nonce;
    let _ip = at.ip;
    let _port = at.port;
}
