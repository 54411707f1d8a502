//! The runtime's clock, over readings that are listed and over real ones.

use m2_edge::{Clock, StdClock};
use std::sync::atomic::{AtomicUsize, Ordering};
use std::thread::{Threads, join};
use std::time::Duration;
use std::{io, thread, time};

/// A runtime's clock with a list of readings in milliseconds; where it has none, the reading fails.
#[derive(Drop)]
struct Listed {
    readings: [Option<u64>; 5],
    next: AtomicUsize,
}

impl time::Clock for Listed {
    fn monotonic(&self) -> io::Result<Duration> {
        let next = self.next.fetch_add(1, Ordering::SeqCst);
        match self.readings.get(next) {
            Some(Some(millis)) => Ok(Duration::from_millis(*millis)),
            _ => Err(io::ErrorKind::Other.into()),
        }
    }

    fn since_1970(&self) -> io::Result<Duration> {
        Err(io::ErrorKind::Unsupported.into())
    }
}

impl Listed {
    fn new(readings: [Option<u64>; 5]) -> Listed {
        Listed {
            readings,
            next: AtomicUsize::new(0),
        }
    }
}

#[test]
fn moments_are_milliseconds_from_the_start(rt: HostRuntime) {
    let readings = Listed::new([Some(1_000), Some(1_007), None, Some(900), Some(3_500)]);
    let clock = StdClock::new(&readings);
    assert_eq!(rt; clock.now(), 7);
    assert_eq!(rt; clock.faults(), 0);
    assert_eq!(rt; clock.now(), 0);
    assert_eq!(rt; clock.faults(), 1);
    assert_eq!(rt; clock.now(), 0);
    assert_eq!(rt; clock.now(), 2_500);
    assert_eq!(rt; clock.faults(), 1);
}

#[test]
fn a_start_that_cannot_be_read_is_a_fault(rt: HostRuntime) {
    let readings = Listed::new([None, Some(5), None, None, None]);
    let clock = StdClock::new(&readings);
    assert_eq!(rt; clock.faults(), 1);
    assert_eq!(rt; clock.now(), 5);
}

/// The moment after a sleep of 2 milliseconds on each of two threads.
fn after_sleeps<R: time::Clock + Threads + Sync>(rt: &R) -> (u64, u64) {
    let clock = StdClock::new(rt);
    join(
        rt,
        || {
            thread::sleep(rt, Duration::from_millis(2));
            clock.now()
        },
        || {
            thread::sleep(rt, Duration::from_millis(2));
            clock.now()
        },
    )
}

#[test]
fn two_threads_see_time_pass(rt: HostRuntime) {
    let (first, second) = after_sleeps(&rt);
    assert!(rt; first >= 2 && second >= 2);
}
