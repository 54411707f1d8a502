//! The program `run_trace`.

use crate::complaint::complaint;
use crate::tracing::trace;
use m2_bytes::Blob;
use m2_program::{Program, ProgramStatus};
use m2_scenario_text::MOST_BYTES;
use std::alloc::Global;

/// The program `run_trace FILE`, which prints the trace of a run of the scenario in its file.
pub struct RunTrace;

impl Program for RunTrace {
    ghost use Rattle.std.specs.Prelude.{◌+◌, codes};
    ghost use Rattle.m2_run_trace.specs.Complaint.{IsComplaintOf};
    ghost use Rattle.m2_run_trace.specs.Tracing.{IsTraceOf};
    ghost use Rattle.m2_scenario_text.specs.declared.reading.TheConstants.{MOST_BYTES};

    ghost makes = { IsTraceOf };

    ghost complains = { IsComplaintOf };

    ghost usage = { codes "usage: run_trace FILE\n" };

    ghost MOST = { MOST_BYTES + 1 };

    const MOST: usize = MOST_BYTES + 1;

    fn usage() -> &'static [u8] {
        b"usage: run_trace FILE\n"
    }

    fn make(alloc: Global, bytes: &[u8]) -> Result<Blob, ProgramStatus> {
        match trace(alloc, bytes) {
            Ok(text) => Ok(text),
            Err(why) => Err(ProgramStatus::BadLine(complaint(alloc, why)?)),
        }
    }
}
