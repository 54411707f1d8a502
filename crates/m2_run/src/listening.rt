//! Nodes that listen.

ghost use Rattle.std.specs.Prelude.{◌≤◌, IfErr, OnOk, length};
ghost use Rattle.m2_run.specs.Listening.{AllListen, CantListen, IsListeningFault, ListensSo};
ghost use Rattle.m2_scenario.specs.declared.limits.TheConstants.{MOST_NODES};

use crate::outcome::RunFault;
use m2_fabric::{Fabric, ListenFault};
use m2_scenario::{MOST_NODES, Node};

/// Each node that is started listens at its address, one after another. Err: the first one that doesn't couldn't, or memory ran
/// out.
pub(crate) fn listen_all<F: Fabric>(fabric: &mut F, nodes: &[Node]) -> Result<(), RunFault>
    requires { length nodes.now ≤ MOST_NODES }
    ensures ok { OnOk result (AllListen nodes.now (F.seen fabric.old) (F.seen fabric.new)) }
    ensures err { IfErr result (λ fault. IsListeningFault fault nodes.now (F.seen fabric.old) (F.seen fabric.new)) }
{
    'nodes: for k in 0..nodes.len() {
        match listen_one(fabric, &nodes[k], k as u32) {
            Ok(()) => {}
            Err(ListenFault::Failed) => return Err(RunFault::Bind { node: k as u32 }),
            Err(ListenFault::NoMemory) => return Err(RunFault::NoMemory),
        }
    }
    Ok(())
}

/// The node at this place does, if it is started.
fn listen_one<F: Fabric>(fabric: &mut F, node: &Node, k: u32) -> Result<(), ListenFault>
    ensures ok { OnOk result (ListensSo k node.now (F.seen fabric.old) (F.seen fabric.new)) }
    ensures err { IfErr result (λ fault. CantListen fault k node.now (F.seen fabric.old) (F.seen fabric.new)) }
{
    if node.started {
        return fabric.listen(k, &node.at);
    }
    Ok(())
}
