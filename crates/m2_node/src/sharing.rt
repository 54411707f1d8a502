//! What the event threads of nodes share.

ghost use Rattle.std.specs.Prelude.{◌≡◌, [], IfOk, OnOk};
ghost use Rattle.m2_dispatch.specs.m2_shared.Gates.{ArePassesOf, AreShared, unused_by};
ghost use Rattle.m2_dispatch.specs.m2_shared.Place.{IsShared};
ghost use Rattle.m2_node.specs.Sharing.{AddsShare, AreRights, AreShares, AreSharesOf};

use crate::node::{Shares, clear_shares};
use m2_bytes::NoMemory;
use m2_scenario::Node;
use m2_script::{NodeShared, Passes};
use m2_shared::{Bounds, NumberPass, Numbers, TakePasses, Throttles};
use std::alloc::Global;
use std::marker::Model;
use std::sync::Condvar;

/// The passes to what the threads of a node share, of which each thread gets its own.
#[derive(Drop)]
pub struct FirstPasses {
    numbers: NumberPass,
    throttles: TakePasses,
}

impl Model for FirstPasses {
    ghost use Rattle.m2_node.specs.Sharing.{FirstPassesNow};

    ghost Value = { FirstPassesNow };

    ghost view = { λ p. record { numbers = p.numbers; throttles = p.throttles } };
}

/// What the threads of each node share, with the first passes to it. It can't be dropped, since a throttle can't.
pub struct Shared {
    pub shares: Vec<Shares>,
    pub passes: Vec<FirstPasses>,
}

/// What the threads of each of these nodes share, of which nothing was granted or drawn: the throttle of its dispatch has its bound, and no
/// other has one.
pub fn shared_by(alloc: Global, nodes: &[Node]) -> Result<Shared, NoMemory>
    ensures { IfOk result (λ of. AreSharesOf nodes.now of.shares.items of.passes.items) }
{
    let mut of = Shared {
        shares: Vec::new(alloc),
        passes: Vec::new(alloc),
    };
    'nodes: for node in nodes {
        if let Err(NoMemory) = add_shares(alloc, node.throttle, &mut of) {
            let Shared { shares, passes: _ } = of;
            clear_shares(shares);
            return Err(NoMemory);
        }
    }
    Ok(of)
}

/// Those of a node whose dispatch has this bound go last. Its other throttles have none.
fn add_shares(alloc: Global, most: u64, of: &mut Shared) -> Result<(), NoMemory>
    ensures { OnOk result (AddsShare most of.old.shares.items of.old.passes.items of.new.shares.items of.new.passes.items) }
{
    of.shares.reserve(1)?;
    of.passes.reserve(1)?;
    let (numbers, number_pass) = Numbers::new(alloc)?;
    let (throttles, passes) = Throttles::new(alloc, &Bounds::of_dispatch(most))?;
    of.shares.push_reserved(Shares {
        shared: NodeShared { numbers, throttles },
        given: Condvar::new(),
        posted: Condvar::new(),
    });
    of.passes.push_reserved(FirstPasses {
        numbers: number_pass,
        throttles: passes,
    });
    Ok(())
}

impl FirstPasses {
    /// The passes of one thread.
    pub(crate) fn split(&mut self, shared: &NodeShared) -> Passes
        requires numbers { self.old.numbers.place ≡ shared.now.numbers.place }
        requires throttles { ArePassesOf shared.now.throttles self.old.throttles }
        requires numbers_shared { IsShared shared.now.numbers.place }
        requires throttles_shared { AreShared shared.now.throttles }
        ensures same { self.new ≡ self.old }
        ensures numbers { result.numbers ≡ record self.old.numbers { drawn = [] } }
        ensures throttles { result.throttles ≡ unused_by shared.now.throttles }
    {
        Passes {
            numbers: self.numbers.split(&shared.numbers),
            throttles: self.throttles.split(&shared.throttles),
        }
    }
    /// The right to give back of the thread of the node's dispatcher.
    fn split_right(&mut self, shared: &NodeShared) -> TakePasses
        requires throttles { ArePassesOf shared.now.throttles self.old.throttles }
        requires shared { AreShared shared.now.throttles }
        ensures same { self.new ≡ self.old }
        ensures throttles { result ≡ unused_by shared.now.throttles }
    {
        self.throttles.split(&shared.throttles)
    }
}

/// Of each node the right to give back of the thread of its dispatcher.
pub fn rights_of(
    alloc: Global,
    shares: &[Shares],
    passes: &mut Vec<FirstPasses>,
) -> Result<Vec<TakePasses>, NoMemory>
    requires { AreShares shares.now passes.old.items }
    ensures same { passes.new.items ≡ passes.old.items }
    ensures rights { IfOk result (λ rights. AreRights shares.now rights.items) }
{
    let mut rights = Vec::new(alloc);
    'nodes: for k in 0..shares.len() {
        let right = passes[k].split_right(shares[k].shared());
        rights.push(right)?;
    }
    Ok(rights)
}
