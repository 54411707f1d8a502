//! Where nodes listen.

ghost use Rattle.std.specs.Prelude.{◌≡◌, IfOk, length, map};
ghost use Rattle.m2_script.specs.Nodes.{address_of};

use m2_bytes::{Items, NoMemory};
use m2_fabric::AddrList;
use m2_scenario::Node;
use std::alloc::Global;

/// The nodes' addresses, in order.
pub fn addresses(alloc: Global, nodes: &[Node]) -> Result<AddrList, NoMemory>
    ensures { IfOk result (λ addrs. addrs.items ≡ map address_of nodes.now) }
{
    let mut addrs = Vec::with_capacity(alloc, nodes.len())?;
    for node in nodes {
        addrs.push(node.at)?;
    }
    Ok(Items::from_vec(addrs))
}
