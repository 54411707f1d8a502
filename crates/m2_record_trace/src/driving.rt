//! What the instructions of a schedule do.

use crate::{Connecting, Pair, Which};
use m2_bytes::NoMemory;
use m2_fabric::News;
use m2_journal::PlanStep;
use m2_scenario_text::{Instruction, SideName};

/// How many steps a turn takes at most.
pub(crate) const MOST_STEPS_OF_A_TURN: u32 = 10_000;

/// Why an instruction wasn't done.
#[derive(Clone, Copy, Debug, PartialEq, Eq)]
pub(crate) enum Undone {
    /// No such socket was opened by then.
    NoSocket,
    NoMemory,
}

impl From<NoMemory> for Undone {
    ghost use Rattle.std.specs.Prelude.{◌≡◌};
    ghost use Rattle.m2_record_trace.specs.declared.driving.Undone.TheVariants as undone;

    ghost from_gives = { λ _ e. e ≡ undone.NoMemory };

    fn from(_e: NoMemory) -> Undone {
        Undone::NoMemory
    }
}

fn which(side: SideName) -> Which {
    match side {
        SideName::A => Which::First,
        SideName::B => Which::Second,
    }
}

/// The place of a socket that was opened.
fn place(pair: &Pair, wire: u32) -> Result<usize, Undone> {
    let wire = wire as usize;
    if wire < 1 || wire > pair.wires().len() {
        return Err(Undone::NoSocket);
    }
    Ok(wire - 1)
}

fn plan(pair: &mut Pair, side: SideName, step: PlanStep) -> Result<(), Undone> {
    match pair.plan(which(side), step) {
        Ok(()) => Ok(()),
        Err(_step) => Err(Undone::NoMemory),
    }
}

fn connect(pair: &mut Pair, side: SideName, now: u64) -> Result<(), Undone> {
    match pair.connect(which(side), now) {
        Connecting::NotDue | Connecting::Opened(_) => Ok(()),
        Connecting::NoMemory => Err(Undone::NoMemory),
    }
}

/// Does what the instruction says.
pub(crate) fn drive(pair: &mut Pair, what: Instruction) -> Result<(), Undone> {
    match what {
        Instruction::Post { side, message } => plan(pair, side, PlanStep::Post(message)),
        Instruction::Dial { side } => plan(pair, side, PlanStep::Dial),
        Instruction::Down { side } => plan(pair, side, PlanStep::Down),
        Instruction::Connect { side, now } => connect(pair, side, now),
        Instruction::Step { side, now } => {
            let _answer = pair.step(which(side), now);
            Ok(())
        }
        Instruction::Arrivals { side, now } => {
            pair.arrivals(which(side), now)?;
            Ok(())
        }
        Instruction::Turn { side, now } => {
            let _moved = pair.turn(which(side), now, MOST_STEPS_OF_A_TURN);
            Ok(())
        }
        Instruction::Flow { side, wire, most } => {
            let at = place(pair, wire)?;
            let _flowed = pair.flow(which(side), at, most as usize);
            Ok(())
        }
        Instruction::Fault { side, wire } => {
            let at = place(pair, wire)?;
            pair.fault(which(side), at);
            Ok(())
        }
        Instruction::Tell { side, wire, bytes } => {
            let at = place(pair, wire)?;
            pair.hear(which(side), at, bytes.as_slice(), News::Flow)?;
            Ok(())
        }
    }
}
