//! What a throttle has granted.

ghost use Rattle.std.specs.Prelude.{◌≡◌};

use crate::held::HeldSeat;
use std::marker::Model;

/// So many bytes, granted by a throttle. It can't be dropped: it ends by
/// [`Throttle::give`](crate::Throttle::give), which gives them back. Contracts see its number of bytes
/// and the place of the throttle's word.
pub struct Grant {
    pub(crate) n: u64,
    /// It holds n. None where the throttle is alone.
    pub(crate) seat: Option<HeldSeat>,
}

impl Model for Grant {
    ghost use Rattle.m2_shared.specs.Throttle.{SeenGrant};
    ghost use Rattle.m2_shared.specs.ThrottleFields.{grant_of, IsGrant};

    ghost Value = { SeenGrant };

    ghost view = { grant_of };

    ghost invariant = { IsGrant };
}

impl Grant {
    /// How many bytes it grants.
    pub fn n(&self) -> u64
        ensures { result ≡ self.now.n }
    {
        self.n
    }
}
