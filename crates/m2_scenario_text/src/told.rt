//! The words for what is bad in a line: where, and what is wanted there.

ghost use Rattle.std.specs.Prelude.{◌≡◌, ◌++◌, OnOk};
ghost use Rattle.m2_scenario_text.specs.Explained.{flaw_told, line_told, name_of, place_told, range_of, wanted_told};

use crate::flaw::{Flaw, Place, Wanted};
use m2_bytes::{Blob, NoMemory, put_decimal};

/// Appends a place, behind a space.
fn put_place(text: &mut Blob, place: Place) -> Result<(), NoMemory>
    ensures { OnOk result (text.new.bytes ≡ text.old.bytes ++ place_told place) }
{
    match place {
        Place::First => text.push_all(b" first"),
        Place::Byte(before) => {
            text.push_all(b" byte ")?;
            put_decimal(text, before as u64)
        }
        Place::Word(behind) => {
            text.push_all(b" word ")?;
            put_decimal(text, behind as u64)
        }
    }
}

/// What is wanted, in a word.
fn name(wanted: Wanted) -> &'static [u8]
    ensures { result.now ≡ name_of wanted }
{
    match wanted {
        Wanted::PrintableByte => b"printable_byte",
        Wanted::FormOfLine => b"form_of_line",
        Wanted::LineOfSim => b"line_of_sim",
        Wanted::LineOfRun => b"line_of_run",
        Wanted::MoreWords => b"more_words",
        Wanted::FewerWords => b"fewer_words",
        Wanted::OptionName => b"option_name",
        Wanted::OptionOnce => b"option_once",
        Wanted::LimitOnce => b"limit_once",
        Wanted::NodeName => b"node_name",
        Wanted::SocketAddress => b"socket_address",
        Wanted::Number { .. } => b"number",
        Wanted::EntityType => b"entity_type",
        Wanted::KindsOfMessage => b"kinds_of_message",
        Wanted::FewerKinds => b"fewer_kinds",
        Wanted::PolicyName => b"policy_name",
        Wanted::FittingPolicy => b"fitting_policy",
        Wanted::HexDigits => b"hex_digits",
        Wanted::NodeAbove => b"node_above",
        Wanted::NewName => b"new_name",
        Wanted::NewSocket => b"new_socket",
        Wanted::OtherNode => b"other_node",
        Wanted::UnlinkedNode => b"unlinked_node",
        Wanted::LinkedNode => b"linked_node",
        Wanted::StartedNode => b"started_node",
        Wanted::NodeWithoutPlan => b"node_without_plan",
        Wanted::FewerNodes => b"fewer_nodes",
        Wanted::FewerLinks => b"fewer_links",
        Wanted::FewerPosts => b"fewer_posts",
        Wanted::ShorterPart => b"shorter_part",
        Wanted::EarlierCut => b"earlier_cut",
        Wanted::FewerCuts => b"fewer_cuts",
        Wanted::FewerFaults => b"fewer_faults",
        Wanted::FewerRounds => b"fewer_rounds",
        Wanted::SmallerFile => b"smaller_file",
    }
}

/// Appends from which to which a number is wanted, where one is.
fn put_range(text: &mut Blob, wanted: Wanted) -> Result<(), NoMemory>
    ensures { OnOk result (text.new.bytes ≡ text.old.bytes ++ range_of wanted) }
{
    let Wanted::Number { least, most } = wanted else {
        return Ok(());
    };
    text.push_all(b" ")?;
    put_decimal(text, least)?;
    text.push_all(b" ")?;
    put_decimal(text, most)
}

/// Appends what is wanted.
#[tactic(auto, unfolding(crate::specs::Explained::wanted_told))]
fn put_wanted(text: &mut Blob, wanted: Wanted) -> Result<(), NoMemory>
    ensures { OnOk result (text.new.bytes ≡ text.old.bytes ++ wanted_told wanted) }
{
    text.push_all(b" wanted ")?;
    text.push_all(name(wanted))?;
    put_range(text, wanted)
}

/// Appends ` line `, its number, ` kind ` and the number of the kind.
#[tactic(auto, unfolding(crate::specs::Explained::line_told))]
fn put_line(text: &mut Blob, line: u32, kind: u8) -> Result<(), NoMemory>
    ensures { OnOk result (text.new.bytes ≡ text.old.bytes ++ line_told line kind) }
{
    text.push_all(b" line ")?;
    put_decimal(text, u64::from(line))?;
    text.push_all(b" kind ")?;
    put_decimal(text, u64::from(kind))
}

/// Appends the first bad line, its kind, the place in it, and what is wanted there.
#[tactic(auto, unfolding(crate::specs::Explained::flaw_told))]
pub(crate) fn put_flaw(text: &mut Blob, line: u32, flaw: &Flaw) -> Result<(), NoMemory>
    ensures { OnOk result (text.new.bytes ≡ text.old.bytes ++ flaw_told line flaw.now) }
{
    put_line(text, line, flaw.kind().number())?;
    put_place(text, flaw.place)?;
    put_wanted(text, flaw.wanted)
}
