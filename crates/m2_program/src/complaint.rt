//! How a complaint of a bad line begins.

ghost use Rattle.std.specs.Prelude.{◌≡◌, ◌++◌, OnOk};
ghost use Rattle.m2_program.specs.Complaint.{bad_line};

use m2_bytes::{Blob, NoMemory, put_decimal};

/// Appends `bad `, what it is a line of, `: line ` and its number.
#[tactic(auto, unfolding(crate::specs::Complaint::bad_line))]
pub fn put_bad_line(text: &mut Blob, what: &[u8], line: u32) -> Result<(), NoMemory>
    ensures { OnOk result (text.new.bytes ≡ text.old.bytes ++ bad_line what.now line) }
{
    text.push_all(b"bad ")?;
    text.push_all(what)?;
    text.push_all(b": line ")?;
    put_decimal(text, u64::from(line))
}
