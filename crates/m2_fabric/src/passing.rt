//! What is passed on in one call, and along which directions.

ghost use Rattle.std.specs.Prelude.{◌≡◌, ◌<◌, [], ◌∷◌, IfOk, OnOk, None};
ghost use Rattle.m2_fabric.specs.News.{AreTold, is_about, is_any_or, is_any_socket_or, logs_of, progress_by, told_to};
ghost use Rattle.m2_fabric.specs.Over.{is_between, leads};

use crate::direction::{Direction, Progress};
use crate::{Holder, SocketId};
use m2_bytes::{Blob, NoMemory};

/// Which directions a call is about, and how much may flow.
#[derive(Clone, Copy, Debug, PartialEq, Eq)]
pub(crate) struct Passing {
    /// The node whose ends write.
    pub(crate) from: u32,
    /// The node whose ends read; any where there is none.
    pub(crate) to: Option<u32>,
    /// The socket; any where there is none.
    pub(crate) socket: Option<SocketId>,
    /// Bytes, at most, on each socket.
    pub(crate) most: u64,
}

/// Whether a node is meant.
fn is_any_or(node: Option<u32>, n: u32) -> bool
    ensures { result ≡ is_any_or node n }
{
    match node {
        None => true,
        Some(m) => m == n,
    }
}

/// Whether a socket is meant.
fn is_any_socket_or(socket: Option<SocketId>, id: &SocketId) -> bool
    ensures { result ≡ is_any_socket_or socket id.now }
{
    match socket {
        None => true,
        Some(socket) => socket.is_same(id),
    }
}

impl Passing {
    /// Whether this is about what leads from one node to another.
    fn leads(&self, from: u32, to: u32) -> bool
        ensures { result ≡ leads self.now from to }
    {
        self.from == from && is_any_or(self.to, to)
    }

    /// Whether this is about what leads between two nodes, one way or the other.
    pub(crate) fn is_between(&self, first: u32, second: u32) -> bool
        ensures { result ≡ is_between self.now first second }
    {
        self.leads(first, second) || self.leads(second, first)
    }

    /// Whether this is about a direction.
    fn is_about(&self, d: &Direction) -> bool
        ensures { result ≡ is_about self.now d.now }
    {
        self.leads(d.from, d.to) && is_any_socket_or(self.socket, &d.id)
    }

    /// Passes on what a direction does, if this is about it. How far the direction has come then. `piece` is room for
    /// what flows.
    #[tactic(auto, using(crate::proofs::Passes::one_passed, crate::proofs::Passes::none_passed))]
    pub(crate) fn pass<H: Holder>(
        &self,
        h: &mut H,
        piece: &mut Blob,
        d: &Direction,
    ) -> Result<Progress, NoMemory>
        requires from { d.now.from < (H.seen h.old).nodes }
        requires to { d.now.to < (H.seen h.old).nodes }
        ensures progress { IfOk result (λ p. p ≡ progress_by self.now (logs_of (H.seen h.old)) d.now) }
        ensures told { OnOk result (AreTold (told_to self.now (logs_of (H.seen h.old)) (d.now ∷ [])) (H.seen h.old) (H.seen h.new)) }
        ensures rest { H.rest h.new ≡ H.rest h.old }
    {
        if !self.is_about(d) {
            return Ok(d.progress);
        }
        d.pass(h, piece, self.most)
    }
}
