//! The throttle.

ghost use Rattle.std.specs.Prelude.{◌≡◌, ◌≢◌, ◌-◌, ◌≤◌, [], None, Some, IfOk};
ghost use Rattle.std.specs.Bool.{OnTrue, OnFalse};
ghost use Rattle.m2_shared.specs.Place.{IsAlone, IsFree, IsOneWord, IsShared};
ghost use Rattle.m2_shared.specs.Throttle.{Waits, bound_of};
ghost use Rattle.m2_shared.specs.Changes.{IsLook, IsMissed, IsReturn, IsRise, IsRoom};
ghost use Rattle.m2_shared.specs.Take.{IfFull, IfGranted, IfTakeAgain, IsAnswerAlone, word_after};

use crate::grant::Grant;
use crate::held::{self, HeldSeat, HeldWord};
use crate::limits::{MOST_TAKEN, NO_BOUND};
use crate::take::Take;
use crate::take_pass::TakePass;
use m2_bytes::NoMemory;
use std::alloc::Global;
use std::marker::Model;

/// Where a throttle keeps its word.
#[derive(Drop)]
pub(crate) enum Making {
    /// In its only pass.
    Alone,
    /// In memory that threads share.
    Shared(HeldWord),
}

/// A bound on how many bytes are granted at a time. Its word is how many are out: the sum of the grants
/// that were made and not given back. Contracts see the bound, and the place of the word, which is none
/// where the throttle is alone.
///
/// Makers: [`alone`](Throttle::alone) and [`new`](Throttle::new). Calls:
/// [`try_take`](Throttle::try_take) and [`give`](Throttle::give). The end: [`close`](Throttle::close).
/// More threads: [`TakePass::split`] and [`TakePass::join`]. Each takes a pass, and each has the
/// condition that passes and grants were made from this throttle. None of them waits.
#[derive(Drop)]
pub struct Throttle {
    most: u64,
    pub(crate) making: Making,
}

impl Model for Throttle {
    ghost use Rattle.m2_shared.specs.Throttle.{SeenThrottle};
    ghost use Rattle.m2_shared.specs.ThrottleFields.{throttle_of, IsThrottle};

    ghost Value = { SeenThrottle };

    ghost view = { throttle_of };

    ghost invariant = { IsThrottle };
}

/// Whether one has to wait before n bytes more are granted, where `out` are out of at most `most`.
fn is_full(most: u64, out: u64, n: u64) -> bool
    ensures full { OnTrue result (Waits most out n) }
    ensures room { OnFalse result (¬ Waits most out n) }
{
    if n <= most && out > most - n {
        return true;
    }
    n >= most && out > most
}

/// The bound that a number means.
fn bound(most: u64) -> u64
    ensures { result ≡ bound_of most }
{
    if most == 0 { NO_BOUND } else { most }
}

/// Asks for n bytes of a word that threads share.
fn take_shared(word: &HeldWord, pass: &mut HeldSeat, most: u64, n: u64) -> Take
    requires word { IsOneWord word.now.shared.table_id }
    requires bound { word.now.shared.key ≡ most }
    requires pass { IsFree pass.old word.now.shared.table_id }
    requires held { pass.old.me.0.held ≡ 0 }
    requires n { n ≤ MOST_TAKEN }
    ensures pass { IsFree pass.new word.now.shared.table_id }
    ensures held { pass.new.me.0.held ≡ 0 }
    ensures granted { IfGranted result (λ g. g ≡ record { place = Some word.now.shared.table_id; n = n }) }
    ensures room { IfGranted result (λ _. IsRoom most n pass.old.me.0.changes pass.new.me.0.changes) }
    ensures full { IfFull result (λ out. Waits most out n) }
    ensures look { IfFull result (λ out. IsLook out pass.old.me.0.changes pass.new.me.0.changes) }
    ensures again { IfTakeAgain result (λ seen now. (now ≢ seen) × ¬ Waits most seen n) }
    ensures missed { IfTakeAgain result (λ seen now. IsMissed seen now pass.old.me.0.changes pass.new.me.0.changes) }
{
    let out = held::load(word, pass);
    if is_full(most, out, n) {
        return Take::Full { held: out };
    }
    let mut seat = held::split(word, pass);
    let found = held::raise(word, &mut seat, out, n);
    if found == out {
        let seat = Some(seat);
        return Take::Grant(Grant { n, seat });
    }
    held::join(word, pass, seat);
    Take::Again {
        seen: out,
        now: found,
    }
}

/// Gives n bytes back, which a seat holds, to a word that threads share.
fn give_shared(word: &HeldWord, pass: &mut HeldSeat, mut seat: HeldSeat, n: u64)
    requires word { IsOneWord word.now.shared.table_id }
    requires pass { IsFree pass.old word.now.shared.table_id }
    requires held { pass.old.me.0.held ≡ 0 }
    requires seat { IsFree seat word.now.shared.table_id }
    requires n { seat.me.0.held ≡ n }
    requires rise { IsRise n seat.me.0.changes }
    ensures pass { IsFree pass.new word.now.shared.table_id }
    ensures held { pass.new.me.0.held ≡ 0 }
    ensures given { IsReturn n pass.old.me.0.changes pass.new.me.0.changes }
{
    held::lower(word, &mut seat, n);
    held::join(word, pass, seat);
}

impl Throttle {
    /// A throttle of at most `most` bytes whose word is a number in its only pass. A `most` of 0 means
    /// [`NO_BOUND`]. Takes no memory.
    pub fn alone(most: u64) -> (Throttle, TakePass)
        ensures throttle { result.0 ≡ record { place = None; most = bound_of most } }
        ensures pass { result.1 ≡ record { place = None; word = 0; changes = [] } }
    {
        let throttle = Throttle {
            most: bound(most),
            making: Making::Alone,
        };
        let pass = TakePass {
            word: 0,
            seat: None,
        };
        (throttle, pass)
    }

    /// A throttle of at most `most` bytes whose word lies in memory that threads share, and the pass of
    /// the first thread. A `most` of 0 means [`NO_BOUND`].
    pub fn new(alloc: Global, most: u64) -> Result<(Throttle, TakePass), NoMemory>
        ensures most { IfOk result (λ r. r.0.most ≡ bound_of most) }
        ensures shared { IfOk result (λ r. IsShared r.0.place) }
        ensures pass { IfOk result (λ r. r.1 ≡ record { place = r.0.place; word = 0; changes = [] }) }
    {
        let most = bound(most);
        let (word, seat) = held::open(alloc, most)?;
        let throttle = Throttle {
            most,
            making: Making::Shared(word),
        };
        let pass = TakePass {
            word: 0,
            seat: Some(seat),
        };
        Ok((throttle, pass))
    }

    /// Asks for n bytes, by the word as it is loaded. `Full` comes exactly where one has to wait by that
    /// word, and tells it. `Again` comes only where the word had changed at the exchange, and never where
    /// the throttle is alone. Where threads share the word, the pass tells each step that it made on it.
    pub fn try_take(&self, pass: &mut TakePass, n: u64) -> Take
        requires pass { pass.old.place ≡ self.now.place }
        requires most { n ≤ MOST_TAKEN }
        ensures place { pass.new.place ≡ pass.old.place }
        ensures granted { IfGranted result (λ g. g ≡ record { place = self.now.place; n = n }) }
        ensures room { IsShared self.now.place → IfGranted result (λ _. IsRoom self.now.most n pass.old.changes pass.new.changes) }
        ensures full { IfFull result (λ held. Waits self.now.most held n) }
        ensures look { IsShared self.now.place → IfFull result (λ held. IsLook held pass.old.changes pass.new.changes) }
        ensures again { IfTakeAgain result (λ seen now. (now ≢ seen) × ¬ Waits self.now.most seen n) }
        ensures missed { IfTakeAgain result (λ seen now. IsMissed seen now pass.old.changes pass.new.changes) }
        ensures alone { IsAlone self.now.place → IsAnswerAlone result self.now.most pass.old.word n }
        ensures word { IsAlone self.now.place → pass.new.word ≡ word_after result pass.old.word n }
    {
        match (&self.making, &mut pass.seat) {
            (Making::Alone, None) => {
                let out = pass.word;
                if is_full(self.most, out, n) {
                    return Take::Full { held: out };
                }
                pass.word = out + n;
                Take::Grant(Grant { n, seat: None })
            }
            (Making::Shared(word), Some(seat)) => take_shared(word, seat, self.most, n),
            _ => unreachable!(),
        }
    }

    /// Gives a grant back: lowers the word by exactly its bytes. A throttle that is alone can't tell its
    /// grants from those of another one: where more comes back than is out, its word stays at 0.
    pub fn give(&self, pass: &mut TakePass, grant: Grant)
        requires pass { pass.old.place ≡ self.now.place }
        requires grant { grant.place ≡ self.now.place }
        ensures place { pass.new.place ≡ pass.old.place }
        ensures word { IsAlone self.now.place → pass.new.word ≡ pass.old.word - grant.n }
        ensures given { IsShared self.now.place → IsReturn grant.n pass.old.changes pass.new.changes }
    {
        let Grant { n, seat } = grant;
        match (&self.making, &mut pass.seat, seat) {
            (Making::Alone, None, None) => pass.word = pass.word.saturating_sub(n),
            (Making::Shared(word), Some(mine), Some(seat)) => give_shared(word, mine, seat, n),
            _ => unreachable!(),
        }
    }

    /// Ends the throttle and gives its word.
    pub fn close(self, pass: TakePass) -> u64
        requires pass { pass.place ≡ self.place }
        ensures word { IsAlone self.place → result ≡ pass.word }
    {
        let Throttle { most: _, making } = self;
        let TakePass { word: out, seat } = pass;
        match (making, seat) {
            (Making::Alone, None) => out,
            (Making::Shared(word), Some(seat)) => held::close(word, seat),
            _ => unreachable!(),
        }
    }
}
