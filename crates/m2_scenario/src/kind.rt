//! The ways in which a line can be bad.

ghost use Rattle.std.specs.Prelude.{◌≡◌};
ghost use Rattle.m2_scenario.specs.Kind.{number_of_kind};
ghost use Rattle.m2_scenario.specs.Steps.{check};

/// The ways in which a line can be bad, with their numbers. Of those that apply to a line the
/// first is told in this order: 1, 11, 2, 4, 7, 3, 8, 10, 5, 6, 9, 12.
#[derive(Clone, Copy, Debug, PartialEq, Eq)]
pub enum Kind {
    /// A byte outside 0x20 to 0x7E, or an unknown first word.
    Unknown = 1,
    /// A wrong number of words, an unknown or repeated option, or a second `limit`.
    Words = 2,
    /// A number or a list of numbers is malformed or out of its range, or an entity is unknown.
    Number = 3,
    /// A new node's name is malformed.
    Name = 4,
    /// A name of no node above.
    NoNode = 5,
    /// A node's name stands above, or its ip and port together.
    Taken = 6,
    /// An address is malformed.
    Address = 7,
    /// An unknown policy, or a pair of policies that no link can have.
    Policy = 8,
    /// A link to itself or a second time; another line without a link of its two nodes; a post, a
    /// dial or a down of a node that is off, or an `off` after such a line.
    Link = 9,
    /// A malformed hexadecimal word.
    Hex = 10,
    /// A line of `sim` in `run`, or the other way round.
    Mode = 11,
    /// A limit on the size of scenarios.
    Limit = 12,
}

impl Kind {
    /// The kind's number, from 1 to 12.
    pub fn number(self) -> u8
        ensures { result ≡ number_of_kind self }
    {
        self as u8
    }
}

/// Why a line isn't taken.
#[derive(Clone, Copy, Debug, PartialEq, Eq)]
pub enum LineFault {
    /// It is bad in this way, the first that applies to it.
    Bad(Kind),
    /// Memory ran out.
    NoMemory,
}

impl From<Kind> for LineFault {
    ghost use Rattle.m2_scenario.specs.declared.kind.LineFault.{LineFault};
    ghost use Rattle.m2_scenario.specs.declared.kind.LineFault.TheVariants as flaw;

    ghost from_gives = { λ kind fault. fault ≡ flaw.Bad kind };

    fn from(kind: Kind) -> LineFault {
        LineFault::Bad(kind)
    }
}

impl From<m2_bytes::NoMemory> for LineFault {
    ghost use Rattle.m2_scenario.specs.declared.kind.LineFault.{LineFault};
    ghost use Rattle.m2_scenario.specs.declared.kind.LineFault.TheVariants as flaw;

    ghost from_gives = { λ _ fault. fault ≡ flaw.NoMemory };

    fn from(_e: m2_bytes::NoMemory) -> LineFault {
        LineFault::NoMemory
    }
}

/// Err with this kind, unless the test passes.
pub fn check(kind: Kind, passes: bool) -> Result<(), Kind>
    ensures { result ≡ check kind passes }
{
    if passes { Ok(()) } else { Err(kind) }
}
