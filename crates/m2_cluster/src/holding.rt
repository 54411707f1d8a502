//! A cluster as the holder of all ends.

ghost use Rattle.m2_cluster.specs.Cluster.{held_by, rest_of};

use crate::cluster::Cluster;
use m2_bytes::NoMemory;
use m2_fabric::{EndLog, Holder, MemoryEnd, MemoryPort, News, SocketId, SocketIdList};

impl<P: MemoryPort, D> Holder for Cluster<P, D>
where
    P::End: MemoryEnd,
{
    ghost use Rattle.std.specs.Prelude.{◌≡◌};
    ghost use Rattle.m2_cluster.specs.Cluster.{ClusterNow};

    ghost seen = { λ c. held_by c.nodes };

    ghost Rest = { ClusterNow D };

    ghost rest = { rest_of };

    fn made(&self, node: u32) -> &SocketIdList {
        self.nodes[node as usize].made()
    }

    fn log(&self, node: u32, id: &SocketId) -> Option<&EndLog> {
        self.nodes[node as usize].log(id)
    }

    fn incoming(&mut self, node: u32, id: SocketId) -> Result<(), NoMemory> {
        self.nodes[node as usize].incoming(id)
    }

    fn hear(&mut self, node: u32, id: &SocketId, bytes: &[u8], news: News) -> Result<(), NoMemory> {
        self.nodes[node as usize].hear(id, bytes, news)
    }
}
