//! What a reader expects of cookies, dials and answers. Each function has an empty body: its
//! contract is the law.

ghost use Rattle.m2_session.specs.AnswerLaws as laws;

/// Cookies of lossless sessions are equal only where place, salt and number are, as long as the
/// numbers are from 1 to 2^40; and none of them is 0, which is none.
#[tactic(auto, using(crate::proofs::Draws::tell_apart))]
pub fn cookies_tell_draws_apart()
    ensures { laws.CookiesTellDrawsApart }
{}

/// A side dials only where the table of steps has a row for it.
#[tactic(auto, using(crate::proofs::Dialling::are_lawful))]
pub fn dials_are_lawful()
    ensures { laws.DialsAreLawful }
{}

/// The frame of an answer keeps the bounds of its fields, so that it is read as it was written.
#[tactic(auto, using(crate::proofs::Bounds::are_in_bounds))]
pub fn answers_are_read_again()
    ensures { laws.AnswersAreInBounds }
{}
