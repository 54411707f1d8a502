//! Feature bits.

ghost use Rattle.std.specs.Prelude.{◌≡◌, ℕ, ◌<◌, ◌↔◌};
ghost use Rattle.m2_policy.specs.Features.{missing_bits, IsMissing};

/// The bits of `required` that aren't in `supported`.
#[tactic(auto, using(crate::proofs::FeatureBits::missing_bit))]
pub fn missing(required: u64, supported: u64) -> u64
    ensures value { result ≡ missing_bits required supported }
    ensures bits { IsMissing required supported result }
{
    required & !supported
}
