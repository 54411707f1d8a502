//! A half in its turn.

ghost use Rattle.std.specs.Prelude.{◌≡◌, length};
ghost use Rattle.m2_trail.specs.Turn.{AdvancesAs};

use crate::turn_moves::{Outcome, move_on};
use crate::{Incoming, MOST_READ};
use m2_fabric::End;

/// How many moves a half makes in a turn at most.
pub const MOST_MOVES: u32 = 4096;

/// What a half came to in its turn.
#[derive(Clone, Copy, Debug, PartialEq, Eq)]
pub enum HalfTurn {
    /// It was asked, and owes the reply. All that it has written is put.
    Asked,
    /// Nothing more came, or nothing more is taken of what it has written, for now.
    Waits,
    /// It has made all its moves of this turn, and may go on.
    Busy,
    /// The socket has ended or failed, or what came isn't of the handshake: its end is to be closed.
    Over,
    /// Memory ran out, and the last move changed nothing. It may go on.
    NoMemory,
}

/// A half goes on until nothing more is there to be done, by at most [`MOST_MOVES`] moves. It reads into
/// the piece, which has [`MOST_READ`] bytes.
pub fn advance<E: End>(half: &mut Incoming<E>, piece: &mut [u8]) -> HalfTurn
    requires piece { length piece.old ≡ MOST_READ }
    ensures { AdvancesAs result half.old half.new }
{
    'moves: for _ in 0..MOST_MOVES {
        if half.ask().is_some() {
            return HalfTurn::Asked;
        }
        match move_on(half, piece) {
            Outcome::GoesOn => {}
            Outcome::Waits => return HalfTurn::Waits,
            Outcome::Ends => return HalfTurn::Over,
            Outcome::Lacks => return HalfTurn::NoMemory,
        }
    }
    match half.ask() {
        Some(_) => HalfTurn::Asked,
        None => HalfTurn::Busy,
    }
}
