//! The program `explain`.
#![tactic(auto)]

mod program;

use crate::program::Explain;
use m2_program::run_program;
use std::process::ExitCode;

fn main(rt: HostRuntime) -> ExitCode {
    run_program::<Explain, _, _, _>(&rt, rt.stdout(), rt.stderr())
}
