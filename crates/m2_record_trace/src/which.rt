//! The two sides of a pair.

ghost use Rattle.std.specs.Prelude.{◌≡◌};
ghost use Rattle.m2_record_trace.specs.PairNow.{other};

/// One of the two sides.
#[derive(Clone, Copy, Debug, PartialEq, Eq)]
pub enum Which {
    First,
    Second,
}

impl Which {
    /// The other one.
    pub fn other(self) -> Which
        ensures { result ≡ other self }
    {
        match self {
            Which::First => Which::Second,
            Which::Second => Which::First,
        }
    }
}
