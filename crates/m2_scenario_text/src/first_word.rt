//! The first words of lines.

ghost use Rattle.std.specs.Prelude.{◌≡◌};
ghost use Rattle.m2_scenario_text.specs.FirstWord.{first_word_of, number_of_word, is_word};

/// What a line is about, by its first word.
#[derive(Clone, Copy, Debug, PartialEq, Eq)]
pub enum FirstWord {
    Node,
    Link,
    Post,
    Dial,
    Down,
    Cut,
    Turn,
    Flow,
    Fault,
    Settle,
    Off,
    Limit,
}

impl FirstWord {
    /// What a line with this first word is about; none exactly where no line begins with it.
    #[tactic(auto, unfolding(crate::specs::FirstWord::first_word_of))]
    pub fn of(word: &[u8]) -> Option<FirstWord>
        ensures { result ≡ first_word_of word.now }
    {
        if word == b"node".as_slice() {
            Some(FirstWord::Node)
        } else if word == b"link".as_slice() {
            Some(FirstWord::Link)
        } else if word == b"post".as_slice() {
            Some(FirstWord::Post)
        } else if word == b"dial".as_slice() {
            Some(FirstWord::Dial)
        } else if word == b"down".as_slice() {
            Some(FirstWord::Down)
        } else if word == b"cut".as_slice() {
            Some(FirstWord::Cut)
        } else if word == b"turn".as_slice() {
            Some(FirstWord::Turn)
        } else if word == b"flow".as_slice() {
            Some(FirstWord::Flow)
        } else if word == b"fault".as_slice() {
            Some(FirstWord::Fault)
        } else if word == b"settle".as_slice() {
            Some(FirstWord::Settle)
        } else if word == b"off".as_slice() {
            Some(FirstWord::Off)
        } else if word == b"limit".as_slice() {
            Some(FirstWord::Limit)
        } else {
            None
        }
    }

    fn number(self) -> u8
        ensures { result ≡ number_of_word self }
    {
        self as u8
    }

    /// Whether it is this one.
    pub(crate) fn is(&self, word: FirstWord) -> bool
        ensures { result ≡ is_word word self.now }
    {
        self.number() == word.number()
    }
}
