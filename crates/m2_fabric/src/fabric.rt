//! What gives each node its ports, and tells of them afterwards.

ghost use Rattle.std.specs.Prelude.{◌≡◌, OnOk, OnErr, IfOk, Some, length, map};
ghost use Rattle.m2_fabric.specs.Fabric.{ArePortsOf, Gathers, HasListenCause, ListensAlone, SeenFabric, Splits};

use crate::end::End;
use crate::port::{EndList, Port, PortList};
use m2_addr::Addr;
use m2_bytes::NoMemory;

/// Why a node doesn't listen.
#[derive(Clone, Copy, Debug, PartialEq, Eq)]
pub enum ListenFault {
    /// It can't at that address.
    Failed,
    NoMemory,
}

/// What gives each node its ports, and takes them back with the ends that were made of them.
///
/// A node listens, is split into the ports of its event threads, and is gathered. From then on the
/// fabric tells what these ports and ends did, until the node is gathered again.
pub trait Fabric {
    type Port: Port;

    /// What contracts see.
    ghost seen: { Self → SeenFabric };

    /// Listens for a node at an address.
    fn listen(&mut self, node: u32, at: &Addr) -> Result<(), ListenFault>
        ensures causes { HasListenCause result (seen self.old).faults (seen self.new).faults }
        ensures ok { OnOk result ((seen self.new).listens node ≡ Some at.now) }
        ensures err { OnErr result ((seen self.new).listens node ≡ (seen self.old).listens node) }
        ensures alone { ListensAlone node (seen self.old) (seen self.new) };

    /// Gives a port for each of the node's event threads, of which the first alone accepts. It makes the
    /// room that [`gather`](Fabric::gather) needs.
    fn split(&mut self, node: u32, centers: u32) -> Result<PortList<Self::Port>, NoMemory>
        ensures ports { IfOk result (λ ports. ArePortsOf centers (map Self.Port.seen ports.items)) }
        ensures ok { IfOk result (λ ports. Splits node (map Self.Port.seen ports.items) (seen self.old) (seen self.new)) }
        ensures err { OnErr result (seen self.new ≡ seen self.old) };

    /// Takes back the ports of the node's last [`split`](Fabric::split), and the ends that were made of
    /// them. Takes no memory.
    fn gather(
        &mut self,
        node: u32,
        ports: PortList<Self::Port>,
        ends: EndList<<Self::Port as Port>::End>,
    )
        requires { (seen self.old).out node ≡ Some (length ports.items) }
        ensures { Gathers node (record { ports = map Self.Port.seen ports.items; ends = map Self.Port.End.seen ends.items }) (seen self.old) (seen self.new) };
}
