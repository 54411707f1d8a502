//! The bounds of a node's throttles.

ghost use Rattle.std.specs.Prelude.{◌≡◌};
ghost use Rattle.m2_shared.specs.Gates.{dispatch_alone};

/// How many messages, and how many bytes of messages, may be on their way from all peers of a type. 0 means
/// [`NO_BOUND`](crate::NO_BOUND).
#[derive(Clone, Copy, Debug, Drop, PartialEq, Eq)]
pub struct TypeBound {
    pub messages: u64,
    pub bytes: u64,
}

/// The bounds of all throttles of a node: for each type of peers, and how many bytes of messages may wait for
/// its dispatcher, of all peers together. 0 means [`NO_BOUND`](crate::NO_BOUND).
#[derive(Clone, Copy, Debug, Drop, PartialEq, Eq)]
pub struct Bounds {
    pub mon: TypeBound,
    pub mds: TypeBound,
    pub osd: TypeBound,
    pub client: TypeBound,
    pub mgr: TypeBound,
    pub dispatch: u64,
}

impl Bounds {
    /// A bound of the dispatch alone.
    pub fn of_dispatch(dispatch: u64) -> Bounds
        ensures { result ≡ dispatch_alone dispatch }
    {
        let none = TypeBound {
            messages: 0,
            bytes: 0,
        };
        Bounds {
            mon: none,
            mds: none,
            osd: none,
            client: none,
            mgr: none,
            dispatch,
        }
    }
}
