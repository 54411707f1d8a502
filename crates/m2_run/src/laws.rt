//! What is promised of kept runs. These functions do nothing: each stands for the law that its contract names.

ghost use Rattle.m2_run.specs.Joined as laws;

use m2_edge::Clock;

/// Two records of a link of a kept run of a valid scenario, of which all that was done has an order, are a link as weaving
/// asks for one: the halves beside them were told what they have judged, no two of their ends are one, and all that they
/// name and post keeps the ranges of its types.
pub fn kept_links_are_joined<C: Clock>()
    ensures { laws.KeptLinksAreJoined C C.may_give }
{}

/// So is each link of a run, by what [`run`](crate::run) tells of it, and its history is an order of it. What a history
/// says of a link that is joined, as that nothing is reset between lossless nodes before a mark-down, holds of it.
pub fn runs_are_joined<C: Clock>()
    ensures { laws.RunsAreJoined C C.may_give }
{}

/// So between two nodes whose policies are lossless nothing is reset before the first mark-down, and of each key what was
/// dispatched is the first of what was posted.
pub fn runs_are_never_reset<C: Clock>()
    ensures { laws.RunsAreNeverReset C C.may_give }
{}

/// Over a lossy link it is some of what was posted, in order, each message once.
pub fn lossy_links_come_in_order<C: Clock>()
    ensures { laws.LossyLinksComeInOrder C C.may_give }
{}
