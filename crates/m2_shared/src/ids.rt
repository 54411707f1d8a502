//! The name of a node's throttles.

ghost use Rattle.std.specs.Prelude.{◌≡◌};
ghost use Rattle.std.specs.Borrow.{ftrue};
ghost use Rattle.m2_shared.specs.declared.throttles.Throttles.{Throttles as AnyThrottles};
ghost use Rattle.m2_shared.specs.contracts.throttles.Throttles as row;

use crate::throttles::Throttles;
use std::marker::Model;

/// Names, for contracts alone, the throttles that it was made of: whose grants and passes belong
/// together. It takes no memory, and its functions do nothing at run time.
#[derive(Drop)]
pub struct Ids {
    pub ghost of: { AnyThrottles } by { row.the_row.coded },
}

impl Model for Ids {
    ghost also_owns = { λ _. ftrue };
}

impl Ids {
    /// The name of a node's throttles.
    pub fn of(_throttles: &Throttles) -> Ids
        ensures { result.of ≡ _throttles.now }
    {
        Ids {}
    }

    /// The same name.
    pub fn copy(&self) -> Ids
        ensures { result.of ≡ self.now.of }
    {
        Ids {}
    }
}

unsafe impl Send for Ids {}

unsafe impl Sync for Ids {}
