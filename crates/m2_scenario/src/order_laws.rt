//! What holds of the words. These functions do nothing: each stands for the law that its contract
//! names.

ghost use Rattle.m2_scenario.specs.OrderLaws.{AllIsAPrefix, CallsAndLeftArePosts, EqualMessagesAreTheSame};

/// Equal messages are the same, one for one.
#[tactic(auto, using(crate::proofs::Sames::equal_are_same))]
pub fn equal_messages_are_the_same()
    ensures { EqualMessagesAreTheSame }
{}

/// Who dispatched all has dispatched a prefix.
pub fn all_is_a_prefix()
    ensures { AllIsAPrefix }
{}

/// Where what is counted is counted over all links, all calls and what is left are all posts.
pub fn calls_and_left_are_posts()
    ensures { CallsAndLeftArePosts }
{}
