//! The first words of instructions.

ghost use Rattle.std.specs.Prelude.{◌≡◌};
ghost use Rattle.m2_scenario_text.specs.Verb.{verb_of};

/// What an instruction is about, by its first word.
#[derive(Clone, Copy, Debug, PartialEq, Eq)]
pub enum Verb {
    Pair,
    Post,
    Dial,
    Down,
    Connect,
    Step,
    Arrivals,
    Turn,
    Flow,
    Fault,
    Tell,
}

impl Verb {
    /// What a line with this first word is about; none exactly where no line begins with it.
    #[tactic(auto, unfolding(crate::specs::Verb::verb_of))]
    pub fn of(word: &[u8]) -> Option<Verb>
        ensures { result ≡ verb_of word.now }
    {
        if word == b"pair".as_slice() {
            Some(Verb::Pair)
        } else if word == b"post".as_slice() {
            Some(Verb::Post)
        } else if word == b"dial".as_slice() {
            Some(Verb::Dial)
        } else if word == b"down".as_slice() {
            Some(Verb::Down)
        } else if word == b"connect".as_slice() {
            Some(Verb::Connect)
        } else if word == b"step".as_slice() {
            Some(Verb::Step)
        } else if word == b"arrivals".as_slice() {
            Some(Verb::Arrivals)
        } else if word == b"turn".as_slice() {
            Some(Verb::Turn)
        } else if word == b"flow".as_slice() {
            Some(Verb::Flow)
        } else if word == b"fault".as_slice() {
            Some(Verb::Fault)
        } else if word == b"tell".as_slice() {
            Some(Verb::Tell)
        } else {
            None
        }
    }
}
