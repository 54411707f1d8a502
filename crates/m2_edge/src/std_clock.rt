//! The runtime's clock.
//!
//! Part of the trusted edge: that the runtime's readings are the time is trusted. Which moment is made of
//! two readings is proved; that `now` reads once, and what it does where that fails, is tested.

ghost use Rattle.std.specs.Prelude.{◌≡◌, ⊤};
ghost use Rattle.m2_edge.specs.Clock.{millis_between};

use crate::clock::Clock;
use std::sync::atomic::{AtomicU64, Ordering};
use std::time;
use std::time::Duration;

/// The runtime's monotonic clock, from where it stood when this value was made. It may give any moment.
///
/// A reading that fails gives 0, the moment of the start, so that to whoever takes moments as rising no
/// time has passed; and it is counted as a fault. The count never falls.
#[derive(Drop)]
pub struct StdClock<'a, R> {
    rt: &'a R,
    /// The reading when this value was made.
    start: Duration,
    /// Shared, since any thread may read the clock.
    faults: AtomicU64,
}

/// The moment at a reading, in milliseconds from the start.
fn moment_at(start: Duration, reading: Duration) -> u64
    ensures { result ≡ millis_between start reading }
{
    u64::try_from(reading.saturating_sub(start).as_millis()).unwrap_or(u64::MAX)
}

/// Counts one more. At its end the count stands still.
fn count(faults: &AtomicU64) {
    let _ = faults.fetch_update(Ordering::SeqCst, Ordering::SeqCst, |n| n.checked_add(1));
}

impl<'a, R: time::Clock> StdClock<'a, R> {
    /// A clock that starts now. Where the runtime's clock can't be read, that is a fault, and moments are
    /// counted from the start of that clock.
    pub fn new(rt: &'a R) -> StdClock<'a, R> {
        let faults = AtomicU64::new(0);
        let start = match rt.monotonic() {
            Ok(reading) => reading,
            Err(_) => {
                count(&faults);
                Duration::ZERO
            }
        };
        StdClock { rt, start, faults }
    }

    /// How many readings failed so far.
    pub fn faults(&self) -> u64 {
        self.faults.load(Ordering::SeqCst)
    }
}

impl<'a, R: time::Clock + Sync> Clock for StdClock<'a, R> {
    ghost may_give = { λ _ _. ⊤ };

    fn now(&self) -> u64 {
        match self.rt.monotonic() {
            Ok(reading) => moment_at(self.start, reading),
            Err(_) => {
                count(&self.faults);
                0
            }
        }
    }
}
