//! What is expected of generated load. The function has an empty body: its contract is the law.

ghost use Rattle.std.specs.Prelude.{◌≡◌, ℕ, count_by};
ghost use Rattle.m2_scenario.specs.Draft.{is_post};
ghost use Rattle.m2_scenario.specs.Generated.{generated};

/// It has as many posts as are asked for.
#[tactic(auto, using(crate::proofs::Posts::posts_counted))]
pub fn posts_are_as_many_as_asked()
    ensures { (posts seed : ℕ) → count_by is_post (generated posts seed).lines ≡ posts }
{}
