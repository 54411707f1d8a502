//! A counter of numbers that two threads share.

ghost use Rattle.std.specs.Prelude.{◌≡◌};

use m2_shared::{Draw, NumberPass, Numbers};
use std::thread::join;

/// How many numbers a thread draws.
const COUNT: u32 = 10_000;

/// How often it tries to, at most.
const TRIES: u32 = 100_000_000;

/// Draws as many numbers as it is to. How many it drew.
fn draw_all(numbers: &Numbers, mut pass: NumberPass) -> (u32, NumberPass)
    requires pass { pass.place ≡ numbers.now.place }
    ensures pass { result.1.place ≡ numbers.now.place }
{
    let mut count = 0;
    for _ in 0..TRIES {
        if count >= COUNT {
            break;
        }
        if let Draw::Number(_) = numbers.draw(&mut pass) {
            count += 1;
        }
    }
    (count, pass)
}

// Numbers that are drawn differ, so where the next is 20,012 the threads have drawn all from 12 on.
#[test]
fn two_threads_draw_20_000_numbers(rt: HostRuntime) {
    let (numbers, mut first) = Numbers::new(rt.alloc()).expect(&rt, "memory");
    assert_eq!(rt; numbers.draw(&mut first), Draw::Number(1));
    numbers.raise(&mut first, 10);
    assert_eq!(rt; numbers.draw(&mut first), Draw::Number(11));
    let second = first.split(&numbers);
    let ((one, mut first), (two, second)) = join(
        &rt,
        || -> (u32, NumberPass)
            requires { first.place ≡ numbers.place }
            ensures { result.1.place ≡ numbers.place }
        { draw_all(&numbers, first) },
        || -> (u32, NumberPass)
            requires { second.place ≡ numbers.place }
            ensures { result.1.place ≡ numbers.place }
        { draw_all(&numbers, second) },
    );
    first.join(&numbers, second);
    assert_eq!(rt; (one, two), (COUNT, COUNT));
    assert_eq!(rt; numbers.draw(&mut first), Draw::Number(20_012));
}
