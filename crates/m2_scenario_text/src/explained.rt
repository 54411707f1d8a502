//! What is said of a file.

ghost use Rattle.std.specs.Prelude.{◌≡◌, ◌++◌, IfOk, OnOk};
ghost use Rattle.m2_scenario_text.specs.Explained.{IsExplanation, command_of, reading_told};
ghost use Rattle.m2_scenario_text.specs.Reading.{text_read};

use crate::bad_scenario::BadScenario;
use crate::reading::read;
use crate::told::put_flaw;
use m2_bytes::{Blob, NoMemory};
use std::alloc::Global;

/// What is bad in these bytes: a line for `sim`, and then one for `run`.
pub fn explanation(alloc: Global, bytes: &[u8]) -> Result<Blob, NoMemory>
    ensures { IfOk result (λ text. IsExplanation bytes.now text.bytes) }
{
    let mut text = Blob::empty(alloc);
    put_reading(alloc, &mut text, false, bytes)?;
    put_reading(alloc, &mut text, true, bytes)?;
    Ok(text)
}

/// Appends what is bad in a text of `run`, or else of `sim`, with a line feed.
#[tactic(auto, unfolding(crate::specs::Explained::reading_told))]
fn put_reading(alloc: Global, text: &mut Blob, run: bool, bytes: &[u8]) -> Result<(), NoMemory>
    ensures { OnOk result (text.new.bytes ≡ text.old.bytes ++ reading_told run (text_read run bytes.now)) }
{
    let read = read(alloc, bytes, run);
    put_command(text, run)?;
    match read {
        Ok(_) => text.push_all(b" good\n"),
        Err(BadScenario::BadLine { line, flaw }) => {
            put_flaw(text, line, &flaw)?;
            text.push_all(b"\n")
        }
        Err(BadScenario::NoMemory) => Err(NoMemory),
    }
}

/// Appends the command.
fn put_command(text: &mut Blob, run: bool) -> Result<(), NoMemory>
    ensures { OnOk result (text.new.bytes ≡ text.old.bytes ++ command_of run) }
{
    if run {
        text.push_all(b"run")
    } else {
        text.push_all(b"sim")
    }
}
