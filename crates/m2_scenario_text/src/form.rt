//! Which lines a scenario file may have.

ghost use Rattle.std.specs.Prelude.{◌≡◌};
ghost use Rattle.m2_scenario_text.specs.Form.{form_of, first_words_of, has, line_of};

use crate::first_word::FirstWord;
use crate::first_word::FirstWord::{
    Cut, Dial, Down, Fault, Flow, Limit, Link, Node, Off, Post, Settle, Turn,
};
use crate::flaw::Wanted;

/// For what a scenario file is written, which says with which first words its lines may begin. A
/// form more is a variant more, with its list of first words.
#[derive(Clone, Copy, Debug, PartialEq, Eq)]
pub enum Form {
    Sim,
    Run,
}

impl Form {
    /// The form of `run`, or else of `sim`.
    pub(crate) fn of(run: bool) -> Form
        ensures { result ≡ form_of run }
    {
        if run { Form::Run } else { Form::Sim }
    }

    /// The first words of its lines.
    pub fn first_words(self) -> &'static [FirstWord]
        ensures { result.now ≡ first_words_of self }
    {
        match self {
            Form::Sim => &[Node, Link, Post, Dial, Down, Cut, Turn, Flow, Fault, Settle],
            Form::Run => &[Node, Link, Post, Dial, Down, Cut, Off, Limit],
        }
    }

    /// What is wanted in place of a line that it doesn't have.
    pub(crate) fn line(self) -> Wanted
        ensures { result ≡ line_of self }
    {
        match self {
            Form::Sim => Wanted::LineOfSim,
            Form::Run => Wanted::LineOfRun,
        }
    }

    /// Whether its lines may begin so.
    pub(crate) fn has(self, word: FirstWord) -> bool
        ensures { result ≡ has self word }
    {
        self.first_words().iter().any(|w| w.is(word))
    }
}
