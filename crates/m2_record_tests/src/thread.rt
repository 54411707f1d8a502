//! A record in a thread's turn: its steps, and its connect at a port.

ghost use Rattle.std.specs.Prelude.{◌≡◌, ◌≤◌};
ghost use Rattle.m2_turn.specs.Answering.{StaysBeside};
ghost use Rattle.m2_turn.specs.Connecting.{IsMadeBy};
ghost use Rattle.m2_turn.specs.Outbox.{OwnsAll};
ghost use Rattle.m2_record.specs.Calls.{Owns};
ghost use Rattle.m2_shared.specs.Gates.{ArePassesOf, places};

use crate::planned::{at, facts, plans};
use m2_dispatch::LogDispatcher;
use m2_fabric::{End, Port, SimEnd, SimPort};
use m2_journal::PlanStep;
use m2_policy::lossless_peer;
use m2_record::{Record, Work};
use m2_shared::{Bounds, NumberPass, Numbers, PeerType, TakePasses, Throttles};
use m2_turn::{Outbox, RecordTurn, connect_if_due, turn_record};
use std::alloc::Global;
use std::process::Abort;

/// An outbox before a log.
fn outbox(rt: &impl Abort, alloc: Global, throttles: &Throttles) -> Outbox<LogDispatcher>
    ensures { OwnsAll (places throttles.now) result }
{
    let _ = throttles;
    match Outbox::new(alloc, LogDispatcher::new(alloc)) {
        Ok(out) => out,
        Err(_fast) => panic!(rt; "no memory for the mail"),
    }
}

/// A record's turn, with all that it works with.
fn turns(
    side: &mut Record<SimEnd>,
    out: &mut Outbox<LogDispatcher>,
    numbers: &Numbers,
    number_pass: &mut NumberPass,
    throttles: &Throttles,
    passes: &mut TakePasses,
) -> RecordTurn
    requires numbers { number_pass.old.place ≡ numbers.now.place }
    requires top { side.old.core.top ≤ number_pass.old.least }
    requires takes { ArePassesOf throttles.now passes.old }
    requires owned { Owns (places throttles.now) side.old }
    requires out { OwnsAll (places throttles.now) out.old }
    ensures stays { StaysBeside side.old side.new }
    ensures top { side.new.core.top ≤ number_pass.new.least }
    ensures owned { Owns (places throttles.now) side.new }
    ensures out { OwnsAll (places throttles.now) out.new }
    ensures number_place { number_pass.new.place ≡ number_pass.old.place }
    ensures passes { ArePassesOf throttles.now passes.new }
{
    let mut work = Work {
        numbers,
        number_pass,
        throttles,
        passes,
    };
    let mut handed = false;
    turn_record(side, out, &mut work, &mut handed, 0)
}

/// Makes the connect that is due, of a record that no socket came to.
fn connects(rt: &impl Abort, side: &mut Record<SimEnd>, port: &mut SimPort, throttles: &Throttles)
    requires made { IsMadeBy port.old.made side.old }
    requires owned { Owns (places throttles.now) side.old }
    ensures owned { Owns (places throttles.now) side.new }
    ensures top { side.new.core.top ≡ side.old.core.top }
{
    let _ = throttles;
    if connect_if_due(side, port, 0).is_err() {
        panic!(rt; "no memory for a socket");
    }
}

/// How many bytes were written on its socket.
fn written(side: &Record<SimEnd>) -> usize {
    match side.feed() {
        Some(end) => end.log().put.len(),
        None => 0,
    }
}

/// A dial is taken from the plan, then the connect is made at the port, and behind it the banner is written.
#[test]
fn a_record_connects_in_its_turn_and_writes_its_banner(rt: HostRuntime) {
    let alloc = rt.alloc();
    let (numbers, mut number_pass) = Numbers::alone();
    let (throttles, mut passes) = Throttles::alone(&Bounds::of_dispatch(0));
    let mut port = SimPort::new(alloc, at(1));
    let mut out = outbox(&rt, alloc, &throttles);
    let mut side = Record::new(
        alloc,
        at(1),
        at(2),
        1,
        lossless_peer(),
        facts(),
        PeerType::Osd,
    );
    plans(&rt, &mut side, PlanStep::Dial);
    let first = turns(
        &mut side,
        &mut out,
        &numbers,
        &mut number_pass,
        &throttles,
        &mut passes,
    );
    assert!(rt; first == RecordTurn::Dry);
    connects(&rt, &mut side, &mut port, &throttles);
    assert_eq!(rt; port.made().len(), 1);
    let second = turns(
        &mut side,
        &mut out,
        &numbers,
        &mut number_pass,
        &throttles,
        &mut passes,
    );
    assert!(rt; second == RecordTurn::Dry);
    // "ceph v2", a line feed, a length of two bytes and two words of features
    assert_eq!(rt; written(&side), 26);
    let _fast = out.clear(&throttles, &mut passes);
    let _ends = side.ends(&throttles, &mut passes);
}
