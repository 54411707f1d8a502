//! What may go from one thread to another.

use m2_dispatch::{Dispatch, LogDispatcher, Parcel};

/// Takes types whose values may go to another thread.
fn may_cross<T: Send>() {}

#[test]
fn a_dispatch_and_its_parcels_may_cross_threads(_rt: HostRuntime) {
    may_cross::<Parcel>();
    may_cross::<Dispatch<LogDispatcher>>();
}
