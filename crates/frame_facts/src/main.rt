//! The program `frame_facts`: the runtime's parts and the words, handed to the call that does the work.
#![tactic(auto)]

use m2_frame_facts::{FactsStatus, run_program};
use m2_program::words;
use std::process::ExitCode;

fn main(rt: HostRuntime) -> ExitCode {
    let Ok(words) = words(&rt) else {
        return ExitCode::from(FactsStatus::NoMemory.code());
    };
    let ran = run_program(rt.alloc(), &rt, &words, rt.stdout(), rt.stderr());
    ExitCode::from(ran.status.code())
}
