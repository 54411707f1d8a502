//! One move of a half, and what comes of it.

ghost use Rattle.std.specs.Prelude.{◌≡◌, ℕ, List, None, length};
ghost use Rattle.m2_trail.specs.TurnMoves.{MakesMove, answers, outcome_of, reads, writes};

use crate::{Incoming, IncomingStep, MOST_READ};
use m2_fabric::{End, EndRead, EndWrite};

/// What comes of a move.
#[derive(Clone, Copy, Debug, PartialEq, Eq)]
pub(crate) enum Outcome {
    /// The half goes on.
    GoesOn,
    /// Nothing more came, or nothing more is taken, for now.
    Waits,
    /// The socket is over.
    Ends,
    /// Memory ran out.
    Lacks,
}

/// The move that a half makes where it stands: what it has written is put, what it has read is answered,
/// and only where that gives no answer is more read.
pub(crate) fn move_on<E: End>(half: &mut Incoming<E>, piece: &mut [u8]) -> Outcome
    requires unasked { half.old.ask ≡ None }
    requires piece { length piece.old ≡ MOST_READ }
    ensures { MakesMove result half.old half.new }
{
    if half.has_text() {
        return of_write(half.write());
    }
    if half.rests() {
        return of_read(half.read(piece));
    }
    of_step(half.step())
}

fn of_write(answer: EndWrite) -> Outcome
    ensures { result ≡ outcome_of (writes answer) }
{
    match answer {
        EndWrite::Put(_) => Outcome::GoesOn,
        EndWrite::NotYet => Outcome::Waits,
        EndWrite::Failed => Outcome::Ends,
        EndWrite::NoMemory => Outcome::Lacks,
    }
}

fn of_read(answer: EndRead) -> Outcome
    ensures { (piece : List ℕ) → result ≡ outcome_of (reads answer piece) }
{
    match answer {
        EndRead::Got(_) => Outcome::GoesOn,
        EndRead::NotYet => Outcome::Waits,
        EndRead::Ended | EndRead::Failed => Outcome::Ends,
        EndRead::NoMemory => Outcome::Lacks,
    }
}

fn of_step(answer: IncomingStep) -> Outcome
    ensures { result ≡ outcome_of (answers answer) }
{
    match answer {
        IncomingStep::Fault(_) => Outcome::Ends,
        IncomingStep::NoMemory => Outcome::Lacks,
        _ => Outcome::GoesOn,
    }
}
