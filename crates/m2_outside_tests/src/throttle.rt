//! A throttle that two threads share.

ghost use Rattle.std.specs.Prelude.{◌≡◌};

use m2_shared::{Take, TakePass, Throttle};
use std::thread::join;

/// How often a thread takes and gives back.
const ROUNDS: u32 = 10_000;

/// How often it tries to, at most.
const TRIES: u32 = 100_000_000;

/// Takes 1 and gives it back as often as it is to. How often it did.
fn take_and_give(throttle: &Throttle, mut pass: TakePass) -> (u32, TakePass)
    requires pass { pass.place ≡ throttle.now.place }
    ensures pass { result.1.place ≡ throttle.now.place }
{
    let mut rounds = 0;
    for _ in 0..TRIES {
        if rounds >= ROUNDS {
            break;
        }
        match throttle.try_take(&mut pass, 1) {
            Take::Grant(grant) => {
                throttle.give(&mut pass, grant);
                rounds += 1;
            }
            Take::Full { held: _ } | Take::Again { seen: _, now: _ } => {}
        }
    }
    (rounds, pass)
}

#[test]
fn two_threads_share_a_throttle_of_1(rt: HostRuntime) {
    let (throttle, mut first) = Throttle::new(rt.alloc(), 1).expect(&rt, "memory");
    let second = first.split(&throttle);
    let ((one, mut first), (two, second)) = join(
        &rt,
        || -> (u32, TakePass)
            requires { first.place ≡ throttle.place }
            ensures { result.1.place ≡ throttle.place }
        { take_and_give(&throttle, first) },
        || -> (u32, TakePass)
            requires { second.place ≡ throttle.place }
            ensures { result.1.place ≡ throttle.place }
        { take_and_give(&throttle, second) },
    );
    first.join(&throttle, second);
    assert_eq!(rt; (one, two), (ROUNDS, ROUNDS));
    assert_eq!(rt; throttle.close(first), 0);
}
