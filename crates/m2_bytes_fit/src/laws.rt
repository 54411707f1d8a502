//! What bytes that fit give. These functions do nothing: each stands for the law that its contract
//! names.

ghost use Rattle.m2_bytes_fit.specs.Orders as orders;
ghost use Rattle.m2_bytes_fit.specs.Posts as posts;
ghost use Rattle.m2_bytes_fit.specs.Trails as trails;

use m2_never_reset::{histories_are_runs, lossless_is_never_reset};

/// Two lawful journals in an order throughout which bytes fit are a history: what each side has heard
/// and judged, the other had sent.
pub fn bytes_give_fits()
    ensures { orders.BytesGiveFits }
{
    histories_are_runs();
}

/// In every order of two lossless journals without a mark-down in which each byte was written before it
/// is read at the other end, each ask is read before it is judged, and each answer is judged before it
/// is written: nothing is thrown away, no number is set back after an acceptance, and messages come in
/// order, each once. The two sides dial different places; what their nodes say of themselves and the
/// addresses that they dial keep the ranges of their types, and the messages that they post the bounds of
/// their frames. That whatever they send then can be read is a part of what is proved.
pub fn lossless_bytes_are_never_reset()
    ensures { orders.LosslessBytesAreNeverReset }
{
    histories_are_runs();
    lossless_is_never_reset();
}

/// Every message that may be sent keeps the bounds of its frame, so that plans can post it.
pub fn posts_can_be_sent()
    ensures { posts.SendablePostsKeepFields }
{}

/// There is a point at which bytes fit and both sides are in Ready: the one has opened a socket, and the
/// other has taken it with its half.
pub fn bytes_can_fit()
    ensures { orders.BytesCanFit }
{}

/// A trail gives what bytes that fit want of a half, at each point of an order of its entries and of its
/// judgements: where each ask was judged behind the entries that were there then, and no entry that writes
/// comes before the judgements that were made before it, the half has come to the judged asks by what it
/// has got, and writes what it has put by that and by their answers.
pub fn trails_tell_each_point()
    ensures { trails.TrailsTellEachPoint }
{}
