//! What is bad in a line: where, and what is wanted there.

ghost use Rattle.std.specs.Prelude.{◌≡◌, ◌≤◌, IfOk, OnOk, length};
ghost use Rattle.m2_scenario_text.specs.Flaw.{at_byte, at_first, at_word, bytes_at, counted, kind_of, number_at, or_want, said, want, want_first};
ghost use Rattle.m2_scenario_text.specs.Taking.{BytesTaken};

use m2_bytes::{Blob, NoMemory};
use m2_scenario::{Kind, LineFault, Words, read_bytes, read_number};
use std::alloc::Global;

/// What is wanted in a line, where something else stands or nothing. docs/SCENARIOS.md has them as a table.
#[derive(Clone, Copy, Debug)]
pub enum Wanted {
    /// A byte of 0x20 to 0x7E.
    PrintableByte,
    /// The first word of a form of line.
    FormOfLine,
    /// A line that `sim` has.
    LineOfSim,
    /// A line that `run` has.
    LineOfRun,
    /// One word more.
    MoreWords,
    /// The end of the line.
    FewerWords,
    /// The name of an option.
    OptionName,
    /// An option that the line doesn't have yet.
    OptionOnce,
    /// A file without another `limit` line.
    LimitOnce,
    /// 1 to 16 of a to z, 0 to 9 and the underscore.
    NodeName,
    /// IP:PORT/NONCE.
    SocketAddress,
    /// A number from `least` to `most`, in decimal digits without a leading zero.
    Number { least: u64, most: u64 },
    /// A type of entity.
    EntityType,
    /// Kinds of message, each from 0 to 65535, with commas between them.
    KindsOfMessage,
    /// 16 kinds of message or fewer.
    FewerKinds,
    /// A policy.
    PolicyName,
    /// A policy that goes with that of the other node.
    FittingPolicy,
    /// Two hexadecimal digits a byte, or `-`.
    HexDigits,
    /// The name of a node above.
    NodeAbove,
    /// A name that no node above has.
    NewName,
    /// An address whose IP and PORT no node above has.
    NewSocket,
    /// Another node than the first.
    OtherNode,
    /// A node that no link above joins with the first.
    UnlinkedNode,
    /// A node that a link above joins with the first.
    LinkedNode,
    /// A node that isn't off.
    StartedNode,
    /// A node without a post, dial or down above.
    NodeWithoutPlan,
    /// A scenario with fewer nodes.
    FewerNodes,
    /// A scenario with fewer links.
    FewerLinks,
    /// A scenario with fewer posts.
    FewerPosts,
    /// A part of a message with fewer bytes.
    ShorterPart,
    /// A cut after fewer bytes.
    EarlierCut,
    /// A scenario with fewer cuts.
    FewerCuts,
    /// A scenario with fewer faults.
    FewerFaults,
    /// A scenario with fewer rounds.
    FewerRounds,
    /// A file with fewer bytes.
    SmallerFile,
}

impl Wanted {
    /// The kind of the line in which it is wanted.
    pub fn kind(self) -> Kind
        ensures { result ≡ kind_of self }
    {
        match self {
            Wanted::PrintableByte | Wanted::FormOfLine => Kind::Unknown,
            Wanted::LineOfSim | Wanted::LineOfRun => Kind::Mode,
            Wanted::MoreWords
            | Wanted::FewerWords
            | Wanted::OptionName
            | Wanted::OptionOnce
            | Wanted::LimitOnce => Kind::Words,
            Wanted::NodeName => Kind::Name,
            Wanted::SocketAddress => Kind::Address,
            Wanted::Number { .. }
            | Wanted::EntityType
            | Wanted::KindsOfMessage
            | Wanted::FewerKinds => Kind::Number,
            Wanted::PolicyName | Wanted::FittingPolicy => Kind::Policy,
            Wanted::HexDigits => Kind::Hex,
            Wanted::NodeAbove => Kind::NoNode,
            Wanted::NewName | Wanted::NewSocket => Kind::Taken,
            Wanted::OtherNode
            | Wanted::UnlinkedNode
            | Wanted::LinkedNode
            | Wanted::StartedNode
            | Wanted::NodeWithoutPlan => Kind::Link,
            Wanted::FewerNodes
            | Wanted::FewerLinks
            | Wanted::FewerPosts
            | Wanted::ShorterPart
            | Wanted::EarlierCut
            | Wanted::FewerCuts
            | Wanted::FewerFaults
            | Wanted::FewerRounds
            | Wanted::SmallerFile => Kind::Limit,
        }
    }
}

/// A place in a line.
#[derive(Clone, Copy, Debug)]
pub enum Place {
    /// The byte behind so many.
    Byte(usize),
    /// The first word.
    First,
    /// The word behind the first one and so many others, or, where no word stands there, the end of the line.
    Word(usize),
}

/// What is bad in a line: at this place this is wanted.
#[derive(Clone, Copy, Debug)]
pub struct Flaw {
    pub place: Place,
    pub wanted: Wanted,
}

impl Flaw {
    /// The kind of the line.
    pub fn kind(self) -> Kind
        ensures { result ≡ kind_of self.wanted }
    {
        self.wanted.kind()
    }

    /// At the byte behind so many.
    pub(crate) fn at_byte(before: usize, wanted: Wanted) -> Flaw
        ensures { result ≡ at_byte before wanted }
    {
        Flaw {
            place: Place::Byte(before),
            wanted,
        }
    }

    pub(crate) fn at_first(wanted: Wanted) -> Flaw
        ensures { result ≡ at_first wanted }
    {
        Flaw {
            place: Place::First,
            wanted,
        }
    }

    /// At the word behind the first one and so many others.
    pub(crate) fn at_word(behind: usize, wanted: Wanted) -> Flaw
        ensures { result ≡ at_word behind wanted }
    {
        Flaw {
            place: Place::Word(behind),
            wanted,
        }
    }
}

/// Why a line isn't taken.
#[derive(Clone, Copy, Debug)]
pub(crate) enum LineFlaw {
    /// It is bad in this way, the first that applies to it.
    Bad(Flaw),
    /// Memory ran out.
    NoMemory,
}

impl From<Flaw> for LineFlaw {
    ghost use Rattle.std.specs.Prelude.{◌≡◌};
    ghost use Rattle.m2_scenario_text.specs.declared.flaw.LineFlaw.TheVariants as taking;

    ghost from_gives = { λ flaw fault. fault ≡ taking.Bad flaw };

    fn from(flaw: Flaw) -> LineFlaw {
        LineFlaw::Bad(flaw)
    }
}

impl From<NoMemory> for LineFlaw {
    ghost use Rattle.std.specs.Prelude.{◌≡◌};
    ghost use Rattle.m2_scenario_text.specs.declared.flaw.LineFlaw.TheVariants as taking;

    ghost from_gives = { λ _ fault. fault ≡ taking.NoMemory };

    fn from(_e: NoMemory) -> LineFlaw {
        LineFlaw::NoMemory
    }
}

/// Err with what is wanted at that word, unless the test passes.
pub(crate) fn want(behind: usize, wanted: Wanted, passes: bool) -> Result<(), Flaw>
    ensures { result ≡ want behind wanted passes }
{
    if passes {
        Ok(())
    } else {
        Err(Flaw::at_word(behind, wanted))
    }
}

/// Err with what is wanted in place of the first word, unless the test passes.
pub(crate) fn want_first(wanted: Wanted, passes: bool) -> Result<(), Flaw>
    ensures { result ≡ want_first wanted passes }
{
    if passes {
        Ok(())
    } else {
        Err(Flaw::at_first(wanted))
    }
}

/// Err unless the line has from `least` to `most` words behind its first.
#[tactic(auto, unfolding(crate::specs::Flaw::counted))]
pub(crate) fn counted(least: usize, most: usize, words: &Words<'_>) -> Result<(), Flaw>
    ensures value { result ≡ counted least most words.now }
    ensures least { OnOk result (least ≤ length words.now) }
    ensures most { OnOk result (length words.now ≤ most) }
{
    let count = words.len();
    want(count, Wanted::MoreWords, least <= count)?;
    want(most, Wanted::FewerWords, count <= most)
}

/// What is there, or else this is wanted at that word.
pub(crate) fn or_want<T>(behind: usize, wanted: Wanted, found: Option<T>) -> Result<T, Flaw>
    ensures { result ≡ or_want behind wanted found }
{
    match found {
        Some(value) => Ok(value),
        None => Err(Flaw::at_word(behind, wanted)),
    }
}

/// What the word says, or else this is wanted in its place.
pub(crate) fn said<T>(behind: usize, wanted: Wanted, read: Result<T, Kind>) -> Result<T, Flaw>
    ensures { result ≡ said behind wanted read }
{
    match read {
        Ok(value) => Ok(value),
        Err(_) => Err(Flaw::at_word(behind, wanted)),
    }
}

/// The number that the word says, from `least` to `most`.
pub(crate) fn number(behind: usize, least: u64, most: u64, word: &[u8]) -> Result<u64, Flaw>
    ensures value { result ≡ number_at behind least most word.now }
    ensures least { IfOk result (λ n. least ≤ n) }
    ensures most { IfOk result (λ n. n ≤ most) }
{
    match read_number(Kind::Number, least, most, word) {
        Ok(n) => Ok(n),
        Err(_) => Err(Flaw::at_word(behind, Wanted::Number { least, most })),
    }
}

/// The bytes that the word spells.
pub(crate) fn bytes(alloc: Global, behind: usize, word: &[u8]) -> Result<Blob, LineFlaw>
    ensures { BytesTaken result (bytes_at behind word.now) }
{
    match read_bytes(alloc, word) {
        Ok(blob) => Ok(blob),
        Err(LineFault::Bad(_)) => Err(LineFlaw::Bad(Flaw::at_word(behind, Wanted::HexDigits))),
        Err(LineFault::NoMemory) => Err(LineFlaw::NoMemory),
    }
}
