//! Text that a half has written and that isn't put.

ghost use Rattle.std.specs.Prelude.{◌≡◌, ◌≤◌, ◌<◌, ◌++◌, [], length, drop, not};
ghost use Rattle.m2_handshake.specs.declared.stage.Stage.TheVariants as stages;
ghost use Rattle.m2_handshake.specs.Asking.{Replies};
ghost use Rattle.m2_handshake.specs.Half.{Answers};
ghost use Rattle.m2_handshake.specs.Texts.{IsReply};
ghost use Rattle.m2_trail.specs.Unput.{behind, is_some};

use m2_bytes::{Blob, NoMemory};
use m2_control::Control;
use m2_handshake::{Half, HalfStep};
use std::alloc::Global;
use std::marker::Model;

/// Bytes that are put from their front and appended at their end. Their memory is used again once all
/// are put. Contracts see what isn't put.
#[derive(Debug, Drop)]
pub struct Unput {
    text: Blob,
    put: usize,
}

impl Model for Unput {
    ghost use Rattle.std.specs.Prelude.{ℕ, List, ◌≤◌, length, drop};

    ghost Value = { List ℕ };

    ghost view = { λ u. drop u.put u.text.bytes };

    ghost invariant = { λ u. u.put ≤ length u.text.bytes };
}

impl Unput {
    /// No bytes. Takes no memory.
    pub(crate) fn empty(alloc: Global) -> Unput
        ensures { result ≡ [] }
    {
        Unput {
            text: Blob::empty(alloc),
            put: 0,
        }
    }

    /// What isn't put.
    pub(crate) fn as_slice(&self) -> &[u8]
        ensures { result.now ≡ self.now }
    {
        let (_, left) = self.text.as_slice().split_at(self.put);
        left
    }

    /// Whether anything isn't put.
    pub(crate) fn is_some(&self) -> bool
        ensures { result ≡ is_some self.now }
    {
        !self.as_slice().is_empty()
    }

    /// The first `n` bytes are put.
    #[tactic(auto, using(crate::proofs::Runs::fits_left))]
    pub(crate) fn pass(&mut self, n: usize)
        requires { n ≤ length self.old }
        ensures { self.new ≡ drop n self.old }
    {
        let len = self.text.len();
        self.put += n;
        if self.put == len {
            self.text.clear();
            self.put = 0;
        }
    }

    /// The next answer of a half that hasn't signed, which appends what it writes.
    pub(crate) fn go_on(&mut self, half: &mut Half) -> HalfStep
        ensures { Answers result (behind half.old.standing self.old) (behind half.new.standing self.new) }
    {
        half.next(&mut self.text)
    }

    /// Appends the frame of a half's reply.
    pub(crate) fn put_reply(&mut self, half: &mut Half, c: &Control) -> Result<(), NoMemory>
        requires owed { half.old.standing.stage ≡ stages.Asked }
        requires reply { IsReply c.now }
        ensures { Replies result c.now (behind half.old.standing self.old) (behind half.new.standing self.new) }
    {
        half.reply(c, &mut self.text)
    }
}
