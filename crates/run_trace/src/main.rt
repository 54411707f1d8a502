//! The program `run_trace`.
#![tactic(auto)]

use m2_program::run_program;
use m2_run_trace::RunTrace;
use std::process::ExitCode;

fn main(rt: HostRuntime) -> ExitCode {
    run_program::<RunTrace, _, _, _>(&rt, rt.stdout(), rt.stderr())
}
