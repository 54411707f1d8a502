//! The options of a node: the table of them, and what each sets.

ghost use Rattle.std.specs.Prelude.{◌≡◌, ◌<◌, ◌≤◌, ◌∷◌, Ok, Err, OnOk, MatchResult, length};
ghost use Rattle.m2_scenario.specs.Text.{word};
ghost use Rattle.m2_scenario.specs.Valid.{HasCenters};
ghost use Rattle.m2_scenario_text.specs.NodeOption.{row_of, number_of_option, repeats, is_once, are_once, options_in, with_option, set_option, set_options, OptionsRead};

use crate::flaw::{Flaw, LineFlaw, Wanted, number, want};
use crate::vocabulary::kinds;
use m2_scenario::{MOST_CENTERS, Node, Words};
use std::alloc::Global;

/// What an option sets.
#[derive(Clone, Copy, Debug)]
pub(crate) enum NodeOption {
    Centers,
    Fast,
    Throttle,
    Supports,
    Requires,
}

/// How often an option may stand in a line.
#[derive(Clone, Copy, Debug)]
pub(crate) enum Times {
    Once,
    /// Once for each type of peer, which its first word names.
    OnceForEachPeerType,
}

/// A row of the table of options.
#[derive(Clone, Copy, Debug)]
pub(crate) struct OptionRow {
    pub option: NodeOption,
    /// How many words stand behind its name.
    pub words: usize,
    pub times: Times,
}

impl NodeOption {
    fn number(self) -> u8
        ensures { result ≡ number_of_option self }
    {
        self as u8
    }

    /// The row of the option of this name; none exactly where no option has it.
    #[tactic(auto, unfolding(crate::specs::NodeOption::row_of))]
    fn row_of(name: &[u8]) -> Option<OptionRow>
        ensures { result ≡ row_of name.now }
    {
        if name == b"centers".as_slice() {
            Some(table_row(NodeOption::Centers, 1, Times::Once))
        } else if name == b"fast".as_slice() {
            Some(table_row(NodeOption::Fast, 1, Times::Once))
        } else if name == b"throttle".as_slice() {
            Some(table_row(NodeOption::Throttle, 1, Times::Once))
        } else if name == b"supports".as_slice() {
            Some(table_row(NodeOption::Supports, 1, Times::Once))
        } else if name == b"requires".as_slice() {
            Some(table_row(NodeOption::Requires, 1, Times::Once))
        } else {
            None
        }
    }
}

fn table_row(option: NodeOption, words: usize, times: Times) -> OptionRow
    ensures { result ≡ record { option = option; words = words; times = times } }
{
    OptionRow {
        option,
        words,
        times,
    }
}

/// An option that stands in a line, and the words from its first on, of which it has as many as its
/// row says.
#[derive(Debug, Drop)]
pub(crate) struct GivenOption<'a> {
    pub row: OptionRow,
    /// How many words stand between the first of the line and its name.
    pub named_at: usize,
    /// How many stand between the first of the line and its own first.
    pub said_at: usize,
    pub words: Words<'a>,
}

impl<'a> GivenOption<'a> {
    // Its first word.
    fn word(&self) -> &'a [u8]
        ensures { result.now ≡ word self.now.words 0 }
    {
        match self.words.copy().next() {
            Some(word) => word,
            None => b"",
        }
    }

    // Whether it stands there again.
    fn repeats(&self, other: &GivenOption<'a>) -> bool
        ensures { result ≡ repeats self.now other.now }
    {
        let same = self.row.option.number() == other.row.option.number();
        match self.row.times {
            Times::Once => same,
            Times::OnceForEachPeerType => same && self.word() == other.word(),
        }
    }
}

// Err where one of these repeats the option.
fn is_once<'a>(option: &GivenOption<'a>, later: &[GivenOption<'a>]) -> Result<(), Flaw>
    ensures { result ≡ is_once option.now later.now }
{
    let mut rest = later;
    'later: while let [first, more @ ..] = rest {
        want(first.named_at, Wanted::OptionOnce, !option.repeats(first))?;
        rest = more;
    }
    Ok(())
}

/// Err unless each stands as often as it may.
pub(crate) fn are_once(given: &[GivenOption<'_>]) -> Result<(), Flaw>
    ensures { result ≡ are_once given.now }
{
    let mut rest = given;
    'options: while let [first, later @ ..] = rest {
        is_once(first, later)?;
        rest = later;
    }
    Ok(())
}

// The option of this name, with its words taken out. So many words stand behind the first of the line.
#[tactic(auto, using(crate::proofs::Options::next_is, crate::proofs::Options::next_lacks, crate::proofs::Options::next_unknown))]
fn next_option<'a>(
    count: usize,
    name: &[u8],
    words: &mut Words<'a>,
) -> Result<GivenOption<'a>, Flaw>
    requires { length words.old < count }
    ensures option { MatchResult result (λ o. options_in count (name.now ∷ words.old) ≡ with_option o (options_in count words.new)) (λ f. options_in count (name.now ∷ words.old) ≡ Err f) }
    ensures fewer { OnOk result (length words.new ≤ length words.old) }
{
    let said_at = count - words.len();
    let named_at = said_at - 1;
    let Some(row) = NodeOption::row_of(name) else {
        return Err(Flaw::at_word(named_at, Wanted::OptionName));
    };
    if words.len() < row.words {
        return Err(Flaw::at_word(count, Wanted::MoreWords));
    }
    let option = GivenOption {
        row,
        named_at,
        said_at,
        words: words.copy(),
    };
    words.skip(row.words);
    Ok(option)
}

/// The options that the words name, in their order; so many words stand behind the first of the line.
#[tactic(auto, using(crate::proofs::Options::none_so_far, crate::proofs::Options::one_more, crate::proofs::Options::none_left, crate::proofs::Options::bad_left))]
pub(crate) fn options<'a>(
    alloc: Global,
    count: usize,
    mut words: Words<'a>,
) -> Result<Vec<GivenOption<'a>>, LineFlaw>
    requires { length words ≤ count }
    ensures { OptionsRead result (options_in count words.entry) }
{
    let mut given = Vec::new(alloc);
    'options: while let Some(name) = words.next() {
        let option = next_option(count, name, &mut words)?;
        if given.push(option).is_err() {
            return Err(LineFlaw::NoMemory);
        }
    }
    Ok(given)
}

// Sets what an option says.
#[tactic(auto, unfolding(crate::specs::NodeOption::set_by))]
fn set_option(node: &mut Node, given: &GivenOption<'_>) -> Result<(), Flaw>
    requires { HasCenters node.old }
    ensures set { MatchResult result (λ _. set_option given.now node.old ≡ Ok node.new) (λ f. set_option given.now node.old ≡ Err f) }
    ensures centers { OnOk result (HasCenters node.new) }
    ensures at { OnOk result (node.new.at ≡ node.old.at) }
{
    let word = given.word();
    let at = given.said_at;
    match given.row.option {
        NodeOption::Centers => {
            node.centers = number(at, 1, MOST_CENTERS as u64, word)? as u32;
        }
        NodeOption::Fast => node.fast = kinds(at, word)?,
        NodeOption::Throttle => {
            node.throttle = number(at, 0, u32::MAX as u64, word)?;
        }
        NodeOption::Supports => node.supports = number(at, 0, u64::MAX, word)?,
        NodeOption::Requires => node.requires_ = number(at, 0, u64::MAX, word)?,
    }
    Ok(())
}

/// Sets what the options say.
pub(crate) fn set_options(node: &mut Node, given: &[GivenOption<'_>]) -> Result<(), Flaw>
    requires { HasCenters node.old }
    ensures set { MatchResult result (λ _. set_options given.now node.old ≡ Ok node.new) (λ f. set_options given.now node.old ≡ Err f) }
    ensures centers { OnOk result (HasCenters node.new) }
    ensures at { OnOk result (node.new.at ≡ node.old.at) }
{
    'options: for option in given {
        set_option(node, option)?;
    }
    Ok(())
}
