//! The sockets of the peer that a side has accepted and not taken.

ghost use Rattle.std.specs.Prelude.{◌≡◌, OnErr};
ghost use Rattle.m2_record_trace.specs.SideNow.{OnlyArrives, OnlyJudges};

use crate::judging::HalfLeft;
use crate::side::{Side, put};
use m2_bytes::NoMemory;
use m2_fabric::SimEnd;
use m2_trail::{Arrival, HalfTurn, Incoming, MOST_READ, advance};

/// How many asks of a half are judged in one turn at most.
const MOST_ASKS: u32 = 1_000;

impl Side {
    /// Each half reads, answers and writes until it rests, and where it is asked, its ask is judged. Err is want of memory
    /// before anything was done.
    pub(crate) fn arrivals(&mut self, now: u64) -> Result<(), NoMemory>
        ensures only { OnlyArrives self.old self.new }
        ensures err { OnErr result (self.new ≡ self.old) }
    {
        self.loose.reserve(self.halves.len())?;
        let mut none = Vec::new(self.alloc);
        none.reserve(self.halves.len())?;
        let halves = std::mem::replace(&mut self.halves, none);
        'halves: for half in halves {
            let left = self.half_goes(half, now);
            self.keep(left);
        }
        Ok(())
    }

    /// Keeps what is left of a half, where memory lasts.
    fn keep(&mut self, left: HalfLeft)
        ensures { OnlyArrives self.old self.new }
    {
        match left {
            HalfLeft::Open(half) => match self.halves.push(half) {
                Ok(()) => {}
                Err(_half) => {}
            },
            HalfLeft::Loose(half) => put(&mut self.loose, half),
            HalfLeft::Taken => {}
        }
    }

    /// A half goes on until it rests, is closed or is taken.
    fn half_goes(&mut self, half: Incoming<SimEnd>, now: u64) -> HalfLeft
        ensures { OnlyJudges self.old self.new }
    {
        let mut piece = [0; MOST_READ];
        let mut half = half;
        'asks: for _ in 0..MOST_ASKS {
            match advance(&mut half, &mut piece) {
                HalfTurn::Asked => match self.judge(Arrival::of(half), now) {
                    HalfLeft::Open(next) => half = next,
                    left => return left,
                },
                HalfTurn::Over => return HalfLeft::Loose(half.close()),
                HalfTurn::Waits | HalfTurn::Busy | HalfTurn::NoMemory => {
                    return HalfLeft::Open(half);
                }
            }
        }
        HalfLeft::Open(half)
    }
}
