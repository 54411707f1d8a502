//! The trace of a schedule.

ghost use Rattle.std.specs.Prelude.{IfOk};
ghost use Rattle.m2_record_trace.specs.Tracing.{AreRecords, IsTraceOfRecords, Traces};

use crate::driving::{Undone, drive};
use crate::sides::pair_of;
use crate::text::put_trace;
use crate::{Pair, Which};
use m2_bytes::{Blob, NoMemory};
use m2_scenario::Kind;
use m2_scenario_text::{BadSchedule, Order, OrderList, PairFacts, Schedule, read_schedule};
use std::alloc::Global;

/// Why a text has no trace.
#[derive(Clone, Copy, Debug, PartialEq, Eq)]
pub enum Untraced {
    /// Its first bad line, in this way.
    BadLine { line: u32, kind: Kind },
    /// The instruction on this line names a socket that wasn't opened by then.
    NoSocket { line: u32 },
    NoMemory,
}

/// Why a schedule wasn't driven to its end.
#[derive(Clone, Copy, Debug, PartialEq, Eq)]
pub(crate) enum Undriven {
    NoSocket { line: u32 },
    NoMemory,
}

impl From<NoMemory> for Undriven {
    ghost use Rattle.std.specs.Prelude.{◌≡◌};
    ghost use Rattle.m2_record_trace.specs.declared.tracing.Undriven.TheVariants as undriven;

    ghost from_gives = { λ _ e. e ≡ undriven.NoMemory };

    fn from(_e: NoMemory) -> Undriven {
        Undriven::NoMemory
    }
}

/// The trace of the schedule that a text says: what two records come to that do what its lines say, one
/// after the other. A text without a pair has an empty trace.
pub fn trace(alloc: Global, bytes: &[u8]) -> Result<Blob, Untraced>
    ensures { Traces result bytes.now }
{
    match read_schedule(alloc, bytes) {
        Ok(
            Schedule {
                pair: None,
                orders: _,
            },
        ) => Ok(Blob::empty(alloc)),
        Ok(
            Schedule {
                pair: Some(facts),
                orders,
            },
        ) => match trace_pair(alloc, &facts, orders) {
            Ok(text) => Ok(text),
            Err(Undriven::NoSocket { line }) => Err(Untraced::NoSocket { line }),
            Err(Undriven::NoMemory) => Err(Untraced::NoMemory),
        },
        Err(BadSchedule::BadLine { line, kind }) => Err(Untraced::BadLine { line, kind }),
        Err(BadSchedule::NoMemory) => Err(Untraced::NoMemory),
    }
}

/// What the two records came to.
fn trace_pair(alloc: Global, facts: &PairFacts, orders: OrderList) -> Result<Blob, Undriven>
    ensures { IfOk result (λ text. IsTraceOfRecords text.bytes) }
{
    let mut pair = pair_of(alloc, facts);
    let traced = trace_driven(alloc, &mut pair, orders);
    let _out = pair.finish();
    traced
}

/// The same of a pair that is driven.
fn trace_driven(alloc: Global, pair: &mut Pair, orders: OrderList) -> Result<Blob, Undriven>
    ensures { IfOk result (λ text. IsTraceOfRecords text.bytes) }
{
    for order in orders.into_vec() {
        drive_line(pair, order)?;
    }
    Ok(trace_now(alloc, pair)?)
}

/// Does what a line says.
fn drive_line(pair: &mut Pair, order: Order) -> Result<(), Undriven> {
    let Order { line, what } = order;
    match drive(pair, what) {
        Ok(()) => Ok(()),
        Err(Undone::NoSocket) => Err(Undriven::NoSocket { line }),
        Err(Undone::NoMemory) => Err(Undriven::NoMemory),
    }
}

/// The trace of a pair as it is.
fn trace_now(alloc: Global, pair: &Pair) -> Result<Blob, NoMemory>
    ensures { IfOk result (λ text. IsTraceOfRecords text.bytes) }
{
    are_records(pair);
    let mut text = Blob::empty(alloc);
    put_trace(&mut text, pair)?;
    Ok(text)
}

/// Both sides are records.
fn are_records(pair: &Pair)
    ensures { AreRecords pair.now }
{
    pair.side(Which::First).record().is_record();
    pair.side(Which::Second).record().is_record();
}
