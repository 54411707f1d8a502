//! The program `msgr2`: the runtime's parts and the words, handed to the call that does the work.
#![tactic(auto)]

use m2_cli::{Status, run_program};
use m2_edge::{OpenGate, RandomWords, StdClock};
use m2_mio::MioFabric;
use m2_program::words;
use rand::make_rng;
use rand::rngs::StdRng;
use std::process::ExitCode;

fn main(rt: HostRuntime) -> ExitCode {
    let Ok(args) = words(&rt) else {
        return ExitCode::from(Status::NoMemory.code());
    };
    let Ok(generator) = make_rng::<StdRng, _>(&rt) else {
        return ExitCode::from(Status::ReadFault.code());
    };
    let mut fabric = MioFabric::new(rt, rt.alloc());
    let clock = StdClock::new(&rt);
    let mut words = RandomWords::new(generator);
    let ended = run_program(
        rt.alloc(),
        &rt,
        &args,
        rt.stdout(),
        rt.stderr(),
        &mut fabric,
        &clock,
        &mut words,
        &OpenGate,
    );
    ExitCode::from(ended.status.code())
}
