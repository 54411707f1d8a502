//! The calls of both dispatchers of a node, turn by turn.

ghost use Rattle.std.specs.Prelude.{◌≡◌, ◌++◌, IfOk, List, OnOk, drop, map, take};
ghost use Rattle.std.specs.Vec.Iter.{into_iter_items};
ghost use Rattle.m2_dispatch.specs.declared.logged.Logged.{Logged};
ghost use Rattle.m2_dispatch.specs.Heard.{heard_by};
ghost use Rattle.m2_scenario.specs.Report.{heard_in};
ghost use Rattle.m2_script.specs.Outcome.{all_heard, in_turns, of_node};
ghost use Rattle.m2_script.specs.Script.{RunNow};
ghost use Rattle.m2_script.specs.Ended.{HeardBoth};

use crate::TurnCalls;
use crate::ending::BothLogs;
use m2_bytes::{Items, NoMemory};
use m2_dispatch::{Logged, LoggedList};
use m2_scenario::LogsList;
use std::alloc::Global;
use std::vec::IntoIter;

/// The log of each node, in their order.
pub(crate) fn logs_of(
    alloc: Global,
    calls: &[TurnCalls],
    ended: Vec<BothLogs>,
) -> Result<LogsList, NoMemory>
    ensures { IfOk result (λ logs. (s : RunNow (List Logged)) → HeardBoth ended.items calls.now s → map heard_in logs.items ≡ all_heard heard_by s) }
{
    let mut logs = Vec::with_capacity(alloc, ended.len())?;
    for both in ended {
        let log = in_turns(alloc, logs.len(), calls, both)?;
        logs.push(log)?;
    }
    Ok(Items::from_vec(logs))
}

/// The calls of both dispatchers of the node at this place, turn by turn.
fn in_turns(
    alloc: Global,
    node: usize,
    calls: &[TurnCalls],
    both: BothLogs,
) -> Result<LoggedList, NoMemory>
    ensures { IfOk result (λ log. log.items ≡ in_turns (of_node node calls.now) both.fast.items both.queued.items) }
{
    let BothLogs { fast, queued } = both;
    let mut merged = Vec::with_capacity(alloc, fast.len() + queued.len())?;
    let mut fast = fast.into_iter();
    let mut queued = queued.into_iter();
    for turn in calls {
        if turn.node as usize == node {
            move_some(&mut fast, turn.fast, &mut merged)?;
            move_some(&mut queued, turn.queued, &mut merged)?;
        }
    }
    move_rest(fast, &mut merged)?;
    move_rest(queued, &mut merged)?;
    Ok(Items::from_vec(merged))
}

/// Moves so many calls, as far as there are.
fn move_some(
    from: &mut IntoIter<Logged>,
    count: usize,
    into: &mut Vec<Logged>,
) -> Result<(), NoMemory>
    ensures into { OnOk result (into.new.items ≡ into.old.items ++ take count (into_iter_items from.old)) }
    ensures from { OnOk result (into_iter_items from.new ≡ drop count (into_iter_items from.old)) }
{
    for _ in 0..count {
        let Some(call) = from.next() else {
            return Ok(());
        };
        into.push(call)?;
    }
    Ok(())
}

/// Moves all calls that are left.
fn move_rest(from: IntoIter<Logged>, into: &mut Vec<Logged>) -> Result<(), NoMemory>
    ensures { OnOk result (into.new.items ≡ into.old.items ++ into_iter_items from) }
{
    for call in from {
        into.push(call)?;
    }
    Ok(())
}
