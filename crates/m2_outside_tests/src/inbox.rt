//! An inbox into which threads put while another takes.

ghost use Rattle.std.specs.Prelude.{◌≡◌, ◌<◌, ◌+◌, IfOk};
ghost use Rattle.m2_mailbox.specs.Passes.{IsGetPassOf, IsPutPassOf, owner_of, parts_of};
ghost use Rattle.m2_mailbox.specs.Views.{all_parts};

use m2_mailbox::{GetPass, Inbox, MOST_ARRIVALS, PutPass, Rest};
use m2_shared::Item;
use std::alloc::Global;
use std::process::Abort;
use std::sync::Wait;
use std::thread;
use std::thread::Threads;

/// The item of a putter with this number. It belongs to whoever counts so many putters that this one is among them.
#[derive(Clone, Copy, Debug, PartialEq, Eq)]
struct Numbered {
    putter: u32,
    number: u32,
}

impl Item for Numbered {
    type Owner = u32;

    ghost belongs = { λ putters item. item.putter < putters };
}

/// How many items each putter puts.
const EACH: u32 = 10_000;

/// How often a thread tries before it gives up: all threads may run one after another.
const MOST_TRIES: u32 = 100_000_000;

/// What the taker saw.
#[derive(Clone, Copy, Debug, PartialEq, Eq)]
struct Tally {
    /// The next number of each putter.
    next: [u32; 2],
    /// How many items came with another number than their putter's next one.
    out_of_order: u32,
}

impl Tally {
    fn new() -> Tally {
        Tally {
            next: [0; 2],
            out_of_order: 0,
        }
    }

    fn note(&mut self, item: Numbered) {
        if let Some(next) = self.next.get_mut(item.putter as usize) {
            if *next != item.number {
                self.out_of_order = self.out_of_order.saturating_add(1);
            }
            *next = item.number.saturating_add(1);
        }
    }

    fn count(&self) -> u64 {
        self.next[0] as u64 + self.next[1] as u64
    }
}

/// Puts the items of one putter. How many were put.
fn put_all<R: Wait>(
    rt: &R,
    inbox: &Inbox<Numbered>,
    mut pass: PutPass<Numbered>,
    putter: u32,
) -> (PutPass<Numbered>, u32)
    requires pass { IsPutPassOf inbox.now pass }
    requires belongs { putter < owner_of inbox.now }
    ensures pass { IsPutPassOf inbox.now result.0 }
    ensures parts { parts_of result.0 ≡ parts_of pass }
{
    let mut number: u32 = 0;
    for _ in 0..MOST_TRIES {
        if number >= EACH {
            break;
        }
        match inbox.put(rt, &mut pass, Numbered { putter, number }) {
            Ok(()) => number += 1,
            Err(_full) => thread::yield_now(),
        }
    }
    (pass, number)
}

/// Takes until all items of two putters came.
fn take_all<R: Wait>(
    rt: &R,
    inbox: &Inbox<Numbered>,
    mut pass: GetPass<Numbered>,
) -> (GetPass<Numbered>, Tally)
    requires pass { IsGetPassOf inbox.now pass }
    ensures pass { IsGetPassOf inbox.now result.0 }
{
    let mut tally = Tally::new();
    for _ in 0..MOST_TRIES {
        if tally.count() >= 2 * EACH as u64 {
            break;
        }
        match inbox.take(rt, &mut pass) {
            Some(item) => tally.note(item),
            None => thread::yield_now(),
        }
    }
    (pass, tally)
}

/// Takes what is left, and ends it.
fn take_rest<R: Wait>(rt: &R, mut rest: Rest<Numbered>, mut tally: Tally) -> Tally {
    for _ in rt.forever() {
        let Some(item) = rest.next(rt) else {
            rest.destroy_empty();
            return tally;
        };
        tally.note(item);
    }
    unreachable!()
}

type Ended = (PutPass<Numbered>, u32);

/// A putter and the taker at the same time.
fn put_and_take<R: Threads + Wait + Sync>(
    rt: &R,
    b: &Inbox<Numbered>,
    put: PutPass<Numbered>,
    get: GetPass<Numbered>,
) -> (Ended, (GetPass<Numbered>, Tally))
    requires put { IsPutPassOf b.now put }
    requires get { IsGetPassOf b.now get }
    requires belongs { 1 < owner_of b.now }
    ensures put { IsPutPassOf b.now result.0.0 × (parts_of result.0.0 ≡ parts_of put) }
    ensures get { IsGetPassOf b.now result.1.0 }
{
    thread::join(
        rt,
        move || -> Ended
            requires { IsPutPassOf b.now put × (1 < owner_of b.now) }
            ensures { IsPutPassOf b.entry.now result.0 × (parts_of result.0 ≡ parts_of put) }
        { put_all(rt, b, put, 1) },
        move || -> (GetPass<Numbered>, Tally)
            requires { IsGetPassOf b.now get }
            ensures { IsGetPassOf b.entry.now result.0 }
        { take_all(rt, b, get) },
    )
}

/// Two putters and a taker at the same time: how many items were put, and what the taker saw.
fn hand_over<R: Threads + Wait + Abort + Sync>(rt: &R, alloc: Global) -> ([u32; 2], Tally) {
    let (inbox, mut first, get) = Inbox::new(alloc, MOST_ARRIVALS, &2).expect(rt, "memory");
    let b = &inbox;
    let second = first.split(rt, b);
    let ((mut first, x), ((second, y), (get, tally))) = thread::join(
        rt,
        move || -> Ended
            requires { IsPutPassOf b.now first × (1 < owner_of b.now) }
            ensures { IsPutPassOf b.entry.now result.0 × (parts_of result.0 ≡ parts_of first) }
        { put_all(rt, b, first, 0) },
        move || -> (Ended, (GetPass<Numbered>, Tally))
            requires { IsPutPassOf b.now second × IsGetPassOf b.now get × (1 < owner_of b.now) }
            ensures { IsPutPassOf b.entry.now result.0.0 × IsGetPassOf b.entry.now result.1.0
                × (parts_of result.0.0 ≡ parts_of second) }
        { put_and_take(rt, b, second, get) },
    );
    first.join(rt, b, second);
    let rest = inbox.close(rt, first, get);
    ([x, y], take_rest(rt, rest, tally))
}

// Two threads put 10,000 items each into 64 places while a third takes: all arrive, each putter's in order.
#[test]
fn all_items_of_two_putters_arrive_in_order(rt: HostRuntime) {
    let (put, tally) = hand_over(&rt, rt.alloc());
    assert_eq!(rt; put, [EACH, EACH]);
    assert_eq!(rt; tally.next, [EACH, EACH]);
    assert_eq!(rt; tally.out_of_order, 0);
}
