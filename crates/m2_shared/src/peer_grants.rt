//! What a node's throttles have granted for a message of a peer.

ghost use Rattle.std.specs.Prelude.{◌≡◌, ◌≤◌};
ghost use Rattle.m2_shared.specs.Stages.{AreOwned, grant_at};
ghost use Rattle.m2_shared.specs.More.{Asks, GivesBack};
ghost use Rattle.m2_shared.specs.Gates.{
  AreHeld,
  ArePassesOf,
  AsksPeer,
  GivesPeer,
  Keep,
  Return,
  held,
  is_whole,
  nothing_held,
  places,
  typed_passes,
  typed_throttles,
};

use crate::grants::Grants;
use crate::limits::MOST_TAKEN;
use crate::more::More;
use crate::peer_type::PeerType;
use crate::stages::{StagePasses, Stages};
use crate::take_pass::TakePass;
use crate::throttle::Throttle;
use crate::throttles::{TakePasses, Throttles};
use crate::type_throttle::{TypePass, TypeThrottle};
use std::mem;

/// What a node's throttles have granted so far for a message of a peer of this type. It can't be dropped,
/// since a grant can't: it is asked for by [`more`](PeerGrants::more), and ends by
/// [`back`](PeerGrants::back). Each call that takes throttles and passes has the condition that the passes
/// were made from these throttles, and leaves it so.
pub struct PeerGrants {
    pub peer: PeerType,
    pub grants: Grants,
}

/// Asks the throttles of a type and that of the dispatch for what is missing.
fn more_of(
    grants: &mut Grants,
    of_type: &TypeThrottle,
    dispatch: &Throttle,
    type_pass: &mut TypePass,
    dispatch_pass: &mut TakePass,
    size: u64,
) -> More
    requires messages { type_pass.old.messages.place ≡ of_type.now.messages.place }
    requires bytes { type_pass.old.bytes.place ≡ of_type.now.bytes.place }
    requires dispatch { dispatch_pass.old.place ≡ dispatch.now.place }
    requires size { size ≤ MOST_TAKEN }
    ensures { Asks result size (typed_throttles of_type.now dispatch.now) (typed_passes type_pass.old dispatch_pass.old) (typed_passes type_pass.new dispatch_pass.new) (grant_at grants.old) (grant_at grants.new) }
{
    let stages = Stages {
        messages: &of_type.messages,
        bytes: &of_type.bytes,
        dispatch,
    };
    let mut passes = StagePasses {
        messages: &mut type_pass.messages,
        bytes: &mut type_pass.bytes,
        dispatch: dispatch_pass,
    };
    grants.more(&stages, &mut passes, size)
}

/// Gives back what these have granted.
fn back_to(
    grants: Grants,
    of_type: &TypeThrottle,
    dispatch: &Throttle,
    type_pass: &mut TypePass,
    dispatch_pass: &mut TakePass,
)
    requires messages { type_pass.old.messages.place ≡ of_type.now.messages.place }
    requires bytes { type_pass.old.bytes.place ≡ of_type.now.bytes.place }
    requires dispatch { dispatch_pass.old.place ≡ dispatch.now.place }
    requires grants { AreOwned (typed_throttles of_type.now dispatch.now) (grant_at grants) }
    ensures { GivesBack (typed_throttles of_type.now dispatch.now) (typed_passes type_pass.old dispatch_pass.old) (typed_passes type_pass.new dispatch_pass.new) (grant_at grants) }
{
    let stages = Stages {
        messages: &of_type.messages,
        bytes: &of_type.bytes,
        dispatch,
    };
    let mut passes = StagePasses {
        messages: &mut type_pass.messages,
        bytes: &mut type_pass.bytes,
        dispatch: dispatch_pass,
    };
    grants.back(&stages, &mut passes);
}

/// Asks the throttles of a node at which messages of such peers are granted.
fn more_at(
    peer: PeerType,
    grants: &mut Grants,
    throttles: &Throttles,
    passes: &mut TakePasses,
    size: u64,
) -> More
    requires passes { ArePassesOf throttles.now passes.old }
    requires size { size ≤ MOST_TAKEN }
    ensures { AsksPeer result size throttles.now passes.old passes.new (record { peer = peer; grants = grants.old }) (record { peer = peer; grants = grants.new }) }
{
    let Throttles { by_type, dispatch } = throttles;
    let TakePasses {
        by_type: own,
        dispatch: pass,
    } = passes;
    match peer {
        PeerType::Mon => more_of(grants, &by_type.mon, dispatch, &mut own.mon, pass, size),
        PeerType::Mds => more_of(grants, &by_type.mds, dispatch, &mut own.mds, pass, size),
        PeerType::Osd => more_of(grants, &by_type.osd, dispatch, &mut own.osd, pass, size),
        PeerType::Client => more_of(
            grants,
            &by_type.client,
            dispatch,
            &mut own.client,
            pass,
            size,
        ),
        PeerType::Mgr => more_of(grants, &by_type.mgr, dispatch, &mut own.mgr, pass, size),
    }
}

/// Gives back to them what they have granted.
fn back_at(peer: PeerType, grants: Grants, throttles: &Throttles, passes: &mut TakePasses)
    requires passes { ArePassesOf throttles.now passes.old }
    requires held { AreHeld (places throttles.now) (record { peer = peer; grants = grants }) }
    ensures { GivesPeer throttles.now passes.old passes.new (record { peer = peer; grants = grants }) }
{
    let Throttles { by_type, dispatch } = throttles;
    let TakePasses {
        by_type: own,
        dispatch: pass,
    } = passes;
    match peer {
        PeerType::Mon => back_to(grants, &by_type.mon, dispatch, &mut own.mon, pass),
        PeerType::Mds => back_to(grants, &by_type.mds, dispatch, &mut own.mds, pass),
        PeerType::Osd => back_to(grants, &by_type.osd, dispatch, &mut own.osd, pass),
        PeerType::Client => back_to(grants, &by_type.client, dispatch, &mut own.client, pass),
        PeerType::Mgr => back_to(grants, &by_type.mgr, dispatch, &mut own.mgr, pass),
    }
}

impl PeerGrants {
    /// Nothing is granted yet.
    pub fn none(peer: PeerType) -> PeerGrants
        ensures { result ≡ nothing_held peer }
    {
        PeerGrants {
            peer,
            grants: Grants::none(),
        }
    }

    /// Whether each stage has granted.
    pub fn is_whole(&self) -> bool
        ensures { result ≡ is_whole self.now }
    {
        self.grants.messages.is_some()
            && self.grants.bytes.is_some()
            && self.grants.dispatch.is_some()
    }

    /// Asks for what is missing, as [`Grants::more`] does, at the throttles for peers of this type and at that of
    /// the dispatch. No other throttle is touched.
    #[tactic(auto, using(crate::proofs::Asking::asks_held))]
    pub fn more(&mut self, throttles: &Throttles, passes: &mut TakePasses, size: u64) -> More
        requires passes { ArePassesOf throttles.now passes.old }
        requires size { size ≤ MOST_TAKEN }
        ensures asks { AsksPeer result size throttles.now passes.old passes.new self.old self.new }
        ensures passes { ArePassesOf throttles.now passes.new }
        ensures held { AreHeld (places throttles.now) self.old → AreHeld (places throttles.now) self.new }
        ensures word { Keep (held self.old) (held self.new) throttles.now passes.old passes.new }
    {
        more_at(self.peer, &mut self.grants, throttles, passes, size)
    }

    /// Gives back what was granted.
    #[tactic(auto, using(crate::proofs::Asking::gives_word))]
    pub fn back(self, throttles: &Throttles, passes: &mut TakePasses)
        requires passes { ArePassesOf throttles.now passes.old }
        requires held { AreHeld (places throttles.now) self }
        ensures gives { GivesPeer throttles.now passes.old passes.new self }
        ensures passes { ArePassesOf throttles.now passes.new }
        ensures word { Return (held self) throttles.now passes.old passes.new }
    {
        let PeerGrants { peer, grants } = self;
        back_at(peer, grants, throttles, passes);
    }

    /// Moves them out; nothing is granted then.
    pub fn take(&mut self) -> PeerGrants
        ensures result { result ≡ self.old }
        ensures nothing { self.new ≡ nothing_held self.old.peer }
    {
        let grants = mem::replace(&mut self.grants, Grants::none());
        PeerGrants {
            peer: self.peer,
            grants,
        }
    }
}
