//! The order of all that two sides did.

ghost use Rattle.std.specs.Prelude.{◌≡◌, replicate, IfOk};
ghost use Rattle.m2_history.specs.Steps.{IsStep, steps_from};

use m2_bytes::{Items, NoMemory};
use m2_weave::Unfit;
use std::alloc::Global;
use thiserror::Error;

/// An entry of a history: which strand it is of, and which item of that, from 0.
#[derive(Clone, Copy, Debug, PartialEq, Eq)]
pub struct HistoryStep {
    pub strand: usize,
    pub place: usize,
}

/// All entries of both sides and of their halves in one order. The strands are the journal of the one side,
/// the halves that it took, the journal and the halves of the other, and then the halves that neither took.
#[derive(Debug, Drop)]
pub struct History {
    pub steps: Items<HistoryStep>,
}

/// Why two records have no history.
#[derive(Clone, Copy, Debug, PartialEq, Eq, Error)]
pub enum WeaveFault {
    #[error("memory ran out")]
    NoMemory,
    /// There is no order, and here an order stops as far as any goes: the byte isn't one that the other end
    /// has written by then.
    #[error("a byte was read that was not written")]
    Unfit(Unfit),
}

/// Why there is no history of sides of which nothing is known but what they lend.
#[derive(Clone, Copy, Debug, PartialEq, Eq, Error)]
pub enum PartsFault {
    #[error("memory ran out")]
    NoMemory,
    /// There is no order, and here an order stops as far as any goes: the byte isn't one that the other end
    /// has written by then.
    #[error("a byte was read that was not written")]
    Unfit(Unfit),
    /// There is no order, and as far as any goes no strand stands at a read: a judgement has no ask, or an
    /// ask no judgement.
    #[error("an ask and its judgement do not meet")]
    Waits,
    /// A journal or a half names a socket of which no end is there.
    #[error("a socket has no end")]
    NoEnd,
}

/// One entry more of a strand has come. A count above 2^64 - 1 is answered as for want of memory.
fn step_on(at: &mut Vec<usize>, strand: usize) -> Result<HistoryStep, NoMemory>
    ensures { IfOk result (λ s. IsStep strand at.old.items at.new.items s) }
{
    let place = at.get(strand).copied().unwrap_or(0);
    if place == usize::MAX {
        return Err(NoMemory);
    }
    if strand < at.len() {
        at[strand] = place + 1;
    }
    Ok(HistoryStep { strand, place })
}

/// The steps of an order of so many strands.
pub(crate) fn steps_of(
    alloc: Global,
    strands: usize,
    order: &[usize],
) -> Result<Items<HistoryStep>, NoMemory>
    ensures { IfOk result (λ s. s.items ≡ steps_from (replicate strands 0) order.now) }
{
    let mut at = Vec::from_elem(alloc, 0, strands)?;
    let mut steps = Vec::with_capacity(alloc, order.len())?;
    for strand in order {
        let step = step_on(&mut at, *strand)?;
        steps.push(step)?;
    }
    Ok(Items::from_vec(steps))
}
