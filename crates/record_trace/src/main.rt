//! The program `record_trace`.
#![tactic(auto)]

use m2_program::run_program;
use m2_record_trace::RecordTrace;
use std::process::ExitCode;

fn main(rt: HostRuntime) -> ExitCode {
    run_program::<RecordTrace, _, _, _>(&rt, rt.stdout(), rt.stderr())
}
