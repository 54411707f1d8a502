//! All throttles of a node.

ghost use Rattle.std.specs.Prelude.{◌≡◌, IfOk};
ghost use Rattle.m2_shared.specs.Place.{IsAlone, IsShared};
ghost use Rattle.m2_shared.specs.Throttle.{joined, unused_pass};
ghost use Rattle.m2_shared.specs.Gates.{AreShared, ArePassesOf, Gate, alone, bound_at, dispatch, pass_in, places, throttle_in, unused, unused_by, words};

use crate::bounds::Bounds;
use crate::take_pass::TakePass;
use crate::throttle::Throttle;
use crate::type_throttle::TypeThrottle;
use crate::type_throttle_list::{TypePassList, TypeThrottleList};
use m2_bytes::NoMemory;
use std::alloc::Global;

/// All throttles of a node: those of each type of peers, and that of its dispatch. Contracts name each by
/// its gate.
#[derive(Drop)]
pub struct Throttles {
    pub by_type: TypeThrottleList,
    pub dispatch: Throttle,
}

/// The right of one thread to take from them and to give back.
#[derive(Drop)]
pub struct TakePasses {
    pub by_type: TypePassList,
    pub dispatch: TakePass,
}

/// Throttles with these bounds whose words are numbers in their only passes.
fn alone_of(bounds: &Bounds) -> (Throttles, TakePasses)
    ensures throttles { result.0 ≡ alone bounds.now }
    ensures passes { result.1 ≡ unused }
{
    let (mon, mon_pass) = TypeThrottle::alone(bounds.mon);
    let (mds, mds_pass) = TypeThrottle::alone(bounds.mds);
    let (osd, osd_pass) = TypeThrottle::alone(bounds.osd);
    let (client, client_pass) = TypeThrottle::alone(bounds.client);
    let (mgr, mgr_pass) = TypeThrottle::alone(bounds.mgr);
    let (dispatch, dispatch_pass) = Throttle::alone(bounds.dispatch);
    let by_type = TypeThrottleList {
        mon,
        mds,
        osd,
        client,
        mgr,
    };
    let passes_by_type = TypePassList {
        mon: mon_pass,
        mds: mds_pass,
        osd: osd_pass,
        client: client_pass,
        mgr: mgr_pass,
    };
    let throttles = Throttles { by_type, dispatch };
    let passes = TakePasses {
        by_type: passes_by_type,
        dispatch: dispatch_pass,
    };
    (throttles, passes)
}

impl Throttles {
    /// Throttles with these bounds whose words are numbers in their only passes. Takes no memory.
    pub fn alone(bounds: &Bounds) -> (Throttles, TakePasses)
        ensures throttles { result.0 ≡ alone bounds.now }
        ensures passes { result.1 ≡ unused }
        ensures of { ArePassesOf result.0 result.1 }
    {
        alone_of(bounds)
    }

    /// Throttles with these bounds whose words lie in memory that threads share, and the passes of the first thread.
    pub fn new(alloc: Global, bounds: &Bounds) -> Result<(Throttles, TakePasses), NoMemory>
        ensures bounds { IfOk result (λ r. (gate : Gate) → (throttle_in r.0 gate).most ≡ bound_at bounds.now gate) }
        ensures shared { IfOk result (λ r. AreShared r.0) }
        ensures passes { IfOk result (λ r. r.1 ≡ unused_by r.0) }
    {
        let (mon, mon_pass) = TypeThrottle::new(alloc, bounds.mon)?;
        let (mds, mds_pass) = TypeThrottle::new(alloc, bounds.mds)?;
        let (osd, osd_pass) = TypeThrottle::new(alloc, bounds.osd)?;
        let (client, client_pass) = TypeThrottle::new(alloc, bounds.client)?;
        let (mgr, mgr_pass) = TypeThrottle::new(alloc, bounds.mgr)?;
        let (dispatch, dispatch_pass) = Throttle::new(alloc, bounds.dispatch)?;
        let by_type = TypeThrottleList {
            mon,
            mds,
            osd,
            client,
            mgr,
        };
        let passes_by_type = TypePassList {
            mon: mon_pass,
            mds: mds_pass,
            osd: osd_pass,
            client: client_pass,
            mgr: mgr_pass,
        };
        let throttles = Throttles { by_type, dispatch };
        let passes = TakePasses {
            by_type: passes_by_type,
            dispatch: dispatch_pass,
        };
        Ok((throttles, passes))
    }

    /// Ends the throttles and gives the word of the dispatch.
    pub fn close(self, passes: TakePasses) -> u64
        requires passes { ArePassesOf self passes }
        ensures word { IsAlone (places self dispatch) → result ≡ words passes dispatch }
    {
        let Throttles {
            by_type: _,
            dispatch: all,
        } = self;
        let TakePasses {
            by_type: _,
            dispatch: own,
        } = passes;
        all.close(own)
    }
}

/// A pass for one thread more. The throttle isn't alone.
fn split_one(pass: &mut TakePass, of: &Throttle) -> TakePass
    requires pass { pass.old.place ≡ of.now.place }
    requires shared { IsShared of.now.place }
    ensures pass { pass.new ≡ pass.old }
    ensures new { result ≡ unused_pass of.now.place }
{
    pass.split(of)
}

impl TakePasses {
    /// Passes for one thread more. No throttle is alone.
    pub fn split(&mut self, throttles: &Throttles) -> TakePasses
        requires passes { ArePassesOf throttles.now self.old }
        requires shared { AreShared throttles.now }
        ensures passes { self.new ≡ self.old }
        ensures new { result ≡ unused_by throttles.now }
    {
        let of = &throttles.by_type;
        let own = &mut self.by_type;
        let by_type = TypePassList {
            mon: own.mon.split(&of.mon),
            mds: own.mds.split(&of.mds),
            osd: own.osd.split(&of.osd),
            client: own.client.split(&of.client),
            mgr: own.mgr.split(&of.mgr),
        };
        let dispatch = split_one(&mut self.dispatch, &throttles.dispatch);
        TakePasses { by_type, dispatch }
    }

    /// Takes other passes in. No throttle is alone.
    pub fn join(&mut self, throttles: &Throttles, other: TakePasses)
        requires passes { ArePassesOf throttles.now self.old }
        requires other { ArePassesOf throttles.now other }
        requires shared { AreShared throttles.now }
        ensures passes { (gate : Gate) → pass_in self.new gate ≡ joined (pass_in self.old gate) (pass_in other gate) }
    {
        let TakePasses { by_type, dispatch } = other;
        let TypePassList {
            mon,
            mds,
            osd,
            client,
            mgr,
        } = by_type;
        let of = &throttles.by_type;
        let own = &mut self.by_type;
        own.mon.join(&of.mon, mon);
        own.mds.join(&of.mds, mds);
        own.osd.join(&of.osd, osd);
        own.client.join(&of.client, client);
        own.mgr.join(&of.mgr, mgr);
        self.dispatch.join(&throttles.dispatch, dispatch);
    }
}
