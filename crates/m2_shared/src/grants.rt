//! What the three stages have granted for a message.

ghost use Rattle.std.specs.Prelude.{◌≡◌, ◌≤◌};
ghost use Rattle.m2_shared.specs.Stages.{AreOwned, ArePassesOf, IsSamePasses, grant_at, nothing_granted, pass_at, throttle_at};
ghost use Rattle.m2_shared.specs.More.{Asks, GivesBack, Goes, asked_course, more_at};
ghost use Rattle.m2_shared.specs.Taking.{IsGivenBack, IsOwned, taking};

use crate::grant::Grant;
use crate::limits::MOST_TAKEN;
use crate::more::More;
use crate::stage::Stage;
use crate::stages::{StagePasses, Stages};
use crate::take::Take;
use crate::take_pass::TakePass;
use crate::throttle::Throttle;

/// What the stages have granted for a message so far. It can't be dropped, since a grant can't: it is asked
/// for by [`more`](Grants::more), and ends by [`back`](Grants::back).
pub struct Grants {
    pub messages: Option<Grant>,
    pub bytes: Option<Grant>,
    pub dispatch: Option<Grant>,
}

/// What a stage answered that was asked where it hadn't granted.
enum Asked {
    Given,
    Full { held: u64 },
    Again { seen: u64, now: u64 },
}

/// Asks a stage, where it hasn't granted.
fn ask(grant: &mut Option<Grant>, throttle: &Throttle, pass: &mut TakePass, n: u64) -> Asked
    requires pass { pass.old.place ≡ throttle.now.place }
    requires most { n ≤ MOST_TAKEN }
    ensures { Goes (asked_course result) (taking throttle.now pass.old pass.new) n grant.old grant.new }
{
    if grant.is_some() {
        return Asked::Given;
    }
    match throttle.try_take(pass, n) {
        Take::Grant(given) => match grant.replace(given) {
            None => Asked::Given,
            Some(_) => unreachable!(),
        },
        Take::Full { held } => Asked::Full { held },
        Take::Again { seen, now } => Asked::Again { seen, now },
    }
}

/// The same, as an answer of this stage.
fn at(stage: Stage, asked: Asked) -> More
    ensures { result ≡ more_at stage asked }
{
    match asked {
        Asked::Given => More::Whole,
        Asked::Full { held } => More::Full { stage, held },
        Asked::Again { seen, now } => More::Again { stage, seen, now },
    }
}

/// Gives back what a stage has granted.
fn give(grant: Option<Grant>, throttle: &Throttle, pass: &mut TakePass)
    requires pass { pass.old.place ≡ throttle.now.place }
    requires grant { IsOwned throttle.now.place grant }
    ensures { IsGivenBack (taking throttle.now pass.old pass.new) grant }
{
    match grant {
        Some(grant) => throttle.give(pass, grant),
        None => {}
    }
}

impl Grants {
    /// Nothing is granted yet.
    pub fn none() -> Grants
        ensures { result ≡ nothing_granted }
    {
        Grants {
            messages: None,
            bytes: None,
            dispatch: None,
        }
    }

    /// Asks for what is missing, in the order of the stages: for one message, for `size` bytes of the
    /// sender's type, and for `size` bytes of the node. It stops at the first stage that doesn't grant; what
    /// was granted stays. Whole comes exactly where each stage has granted then, and Full and Again exactly
    /// where that stage answered so.
    pub fn more(&mut self, s: &Stages<'_>, p: &mut StagePasses<'_>, size: u64) -> More
        requires passes { ArePassesOf (throttle_at s.now) (pass_at p.old) }
        requires size { size ≤ MOST_TAKEN }
        ensures asks { Asks result size (throttle_at s.now) (pass_at p.old) (pass_at p.new) (grant_at self.old) (grant_at self.new) }
        ensures same { IsSamePasses p.old p.new }
    {
        match ask(&mut self.messages, s.messages, p.messages, 1) {
            Asked::Given => {}
            refused => return at(Stage::Messages, refused),
        }
        match ask(&mut self.bytes, s.bytes, p.bytes, size) {
            Asked::Given => {}
            refused => return at(Stage::Bytes, refused),
        }
        at(
            Stage::Dispatch,
            ask(&mut self.dispatch, s.dispatch, p.dispatch, size),
        )
    }

    /// Gives back what was granted.
    pub fn back(self, s: &Stages<'_>, p: &mut StagePasses<'_>)
        requires passes { ArePassesOf (throttle_at s.now) (pass_at p.old) }
        requires grants { AreOwned (throttle_at s.now) (grant_at self) }
        ensures gives { GivesBack (throttle_at s.now) (pass_at p.old) (pass_at p.new) (grant_at self) }
        ensures same { IsSamePasses p.old p.new }
    {
        let Grants {
            messages,
            bytes,
            dispatch,
        } = self;
        give(messages, s.messages, p.messages);
        give(bytes, s.bytes, p.bytes);
        give(dispatch, s.dispatch, p.dispatch);
    }
}
