//! A message that is granted in three stages.

ghost use Rattle.std.specs.Prelude.{◌≡◌, ◌≤◌};
ghost use Rattle.m2_shared.specs.Gates.{AreHeld, ArePassesOf, places};
ghost use Rattle.m2_shared.specs.declared.limits.TheConstants.{MOST_TAKEN};

use m2_shared::{Bounds, More, PeerGrants, PeerType, Stage, TakePasses, Throttles, TypeBound};

/// Throttles that are alone, with these bounds for the peers of one type and none else.
fn made(messages: u64, bytes: u64) -> (Throttles, TakePasses)
    ensures passes { ArePassesOf result.0 result.1 }
{
    let mut bounds = Bounds::of_dispatch(0);
    bounds.osd = TypeBound { messages, bytes };
    Throttles::alone(&bounds)
}

/// What is out at each stage of the peers of that type.
fn out(passes: &TakePasses) -> (Option<u64>, Option<u64>, Option<u64>) {
    (
        passes.by_type.osd.messages.out(),
        passes.by_type.osd.bytes.out(),
        passes.dispatch.out(),
    )
}

/// The same as numbers.
fn are(messages: u64, bytes: u64, dispatch: u64) -> (Option<u64>, Option<u64>, Option<u64>) {
    (Some(messages), Some(bytes), Some(dispatch))
}

/// Asks for what is missing.
fn more(grants: &mut PeerGrants, throttles: &Throttles, passes: &mut TakePasses, size: u64) -> More
    requires passes { ArePassesOf throttles.now passes.old }
    requires held { AreHeld (places throttles.now) grants.old }
    requires size { size ≤ MOST_TAKEN }
    ensures passes { ArePassesOf throttles.now passes.new }
    ensures held { AreHeld (places throttles.now) grants.new }
{
    grants.more(throttles, passes, size)
}

/// Nothing is granted yet.
fn none(throttles: &Throttles) -> PeerGrants
    ensures held { AreHeld (places throttles.now) result }
{
    let _of = throttles;
    PeerGrants::none(PeerType::Osd)
}

// What a stage refuses leaves what the stages before it have granted, and asking again asks for the rest alone.
#[test]
fn what_one_stage_refuses_the_stages_before_it_keep(rt: HostRuntime) {
    let (throttles, mut passes) = made(2, 100);
    let mut first = none(&throttles);
    let mut second = none(&throttles);
    assert_eq!(rt; more(&mut first, &throttles, &mut passes, 60), More::Whole);
    assert_eq!(rt; out(&passes), are(1, 60, 60));
    let full = More::Full {
        stage: Stage::Bytes,
        held: 60,
    };
    assert_eq!(rt; more(&mut second, &throttles, &mut passes, 50), full);
    assert_eq!(rt; out(&passes), are(2, 60, 60));
    first.back(&throttles, &mut passes);
    assert_eq!(rt; out(&passes), are(1, 0, 0));
    assert_eq!(rt; more(&mut second, &throttles, &mut passes, 50), More::Whole);
    assert_eq!(rt; out(&passes), are(1, 50, 50));
    second.back(&throttles, &mut passes);
    assert_eq!(rt; out(&passes), are(0, 0, 0));
}

// Where no message more is granted, its bytes aren't asked for.
#[test]
fn what_the_first_stage_refuses_moves_no_word(rt: HostRuntime) {
    let (throttles, mut passes) = made(1, 100);
    let mut first = none(&throttles);
    let mut second = none(&throttles);
    assert_eq!(rt; more(&mut first, &throttles, &mut passes, 60), More::Whole);
    let full = More::Full {
        stage: Stage::Messages,
        held: 1,
    };
    assert_eq!(rt; more(&mut second, &throttles, &mut passes, 10), full);
    assert_eq!(rt; out(&passes), are(1, 60, 60));
    first.back(&throttles, &mut passes);
    second.back(&throttles, &mut passes);
    assert_eq!(rt; out(&passes), are(0, 0, 0));
}
