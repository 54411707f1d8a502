//! What the limits count of lines.

ghost use Rattle.std.specs.Prelude.{◌≡◌, []};
ghost use Rattle.m2_scenario.specs.Draft.{draft_line};
ghost use Rattle.m2_scenario.specs.Counts.{counts_of, with_one_more, Permit};

use crate::line::Line;

/// How many posts, cuts and faults there are among lines, and how many rounds all settles have
/// together.
#[derive(Clone, Copy, Debug)]
pub struct Counts {
    pub posts: u32,
    pub cuts: u32,
    pub faults: u32,
    pub rounds: u32,
}

impl Counts {
    /// Those of no lines.
    pub(crate) fn none() -> Counts
        ensures { result ≡ counts_of [] }
    {
        Counts {
            posts: 0,
            cuts: 0,
            faults: 0,
            rounds: 0,
        }
    }

    /// Those with one line more.
    pub(crate) fn with(self, line: &Line) -> Counts
        requires { Permit self (draft_line line.now) }
        ensures { result ≡ with_one_more self (draft_line line.now) }
    {
        match line {
            Line::Post { .. } => Counts {
                posts: self.posts + 1,
                ..self
            },
            Line::Cut { .. } => Counts {
                cuts: self.cuts + 1,
                ..self
            },
            Line::Fault { .. } => Counts {
                faults: self.faults + 1,
                ..self
            },
            Line::Settle { rounds } => Counts {
                rounds: self.rounds + *rounds,
                ..self
            },
            Line::Dial { .. } | Line::Down { .. } | Line::Turn { .. } | Line::Flow { .. } => self,
        }
    }
}
