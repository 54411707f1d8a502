//! The numbers that came in.

ghost use Rattle.m2_queues.specs.InNumbers.{IsJudged};

/// The number of the last message that was taken; 0 before the first.
#[derive(Clone, Copy, Debug, PartialEq, Eq)]
pub struct InNumbers {
    pub last: u64,
}

/// What a number is beside the last one that was taken.
#[derive(Clone, Copy, Debug, PartialEq, Eq)]
pub enum Judge {
    /// The next one.
    New,
    /// One that was taken before.
    Old,
    /// One behind the next: a message is missing.
    Gap,
}

impl InNumbers {
    /// New exactly for `last + 1`, Old exactly for a number at or below `last`, else Gap.
    pub fn judge(&self, number: u64) -> Judge
        ensures { IsJudged self.now.last number result }
    {
        if number <= self.last {
            Judge::Old
        } else if number - self.last == 1 {
            Judge::New
        } else {
            Judge::Gap
        }
    }
}
