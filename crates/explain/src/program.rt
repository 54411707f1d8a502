//! What the program makes of its file.

use m2_bytes::{Blob, NoMemory};
use m2_program::{Program, ProgramStatus};
use m2_scenario_text::{MOST_BYTES, explanation};
use std::alloc::Global;

/// The program `explain FILE`, which prints what is bad in its file as one of `sim` and as one of `run`.
pub(crate) struct Explain;

impl Program for Explain {
    ghost use Rattle.std.specs.Prelude.{◌+◌, codes};
    ghost use Rattle.m2_scenario_text.specs.Explained.{IsExplanation, IsNeverSaid};
    ghost use Rattle.m2_scenario_text.specs.declared.reading.TheConstants.{MOST_BYTES};

    ghost makes = { IsExplanation };

    ghost complains = { IsNeverSaid };

    ghost usage = { codes "usage: explain FILE\n" };

    ghost MOST = { MOST_BYTES + 1 };

    const MOST: usize = MOST_BYTES + 1;

    fn usage() -> &'static [u8] {
        b"usage: explain FILE\n"
    }

    fn make(alloc: Global, bytes: &[u8]) -> Result<Blob, ProgramStatus> {
        match explanation(alloc, bytes) {
            Ok(text) => Ok(text),
            Err(NoMemory) => Err(ProgramStatus::NoMemory),
        }
    }
}
