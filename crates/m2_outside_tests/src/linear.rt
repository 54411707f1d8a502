//! Values that can't be dropped, in an inbox.

ghost use Rattle.std.specs.Prelude.{◌≡◌};
ghost use Rattle.m2_mailbox.specs.Passes.{IsPutPassOf, parts_of};

use m2_mailbox::{Inbox, PutPass, Rest};
use m2_shared::Item;
use std::sync::Wait;

/// A value that can't be dropped. It belongs to everybody.
struct Linear {
    value: u32,
}

impl Linear {
    /// Ends it, and gives its value.
    fn end(self) -> u32 {
        let Linear { value } = self;
        value
    }
}

impl Item for Linear {
    type Owner = ();

    ghost use Rattle.std.specs.Prelude.{⊤};

    ghost belongs = { λ owner item. ⊤ };
}

/// Puts a value. What came back.
fn put<R: Wait>(
    rt: &R,
    inbox: &Inbox<Linear>,
    pass: &mut PutPass<Linear>,
    value: u32,
) -> Option<u32>
    requires pass { IsPutPassOf inbox.now pass.old }
    ensures pass { IsPutPassOf inbox.now pass.new }
    ensures parts { parts_of pass.new ≡ parts_of pass.old }
{
    match inbox.put(rt, pass, Linear { value }) {
        Ok(()) => None,
        Err(full) => Some(full.item.end()),
    }
}

/// The value that is left last. Ends the rest.
fn last_left<R: Wait>(rt: &R, mut rest: Rest<Linear>) -> Option<u32> {
    let mut last = None;
    for _ in rt.forever() {
        let Some(item) = rest.next(rt) else {
            rest.destroy_empty();
            return last;
        };
        last = Some(item.end());
    }
    unreachable!()
}

// What can't be dropped comes back from a full inbox, or is left in it at the close.
#[test]
fn what_cannot_be_dropped_is_never_lost(rt: HostRuntime) {
    let (inbox, mut pass, get) = Inbox::new(rt.alloc(), 1, &()).expect(&rt, "memory");
    assert_eq!(rt; put(&rt, &inbox, &mut pass, 7), None);
    assert_eq!(rt; put(&rt, &inbox, &mut pass, 8), Some(8));
    let rest = inbox.close(&rt, pass, get);
    assert_eq!(rt; last_left(&rt, rest), Some(7));
}
