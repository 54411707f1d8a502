//! What is told of a run.

ghost use Rattle.std.specs.Prelude.{◌≡◌, IfOk, List, map};
ghost use Rattle.m2_dispatch.specs.declared.logged.Logged.{Logged};
ghost use Rattle.m2_dispatch.specs.Heard.{heard_by};
ghost use Rattle.m2_scenario.specs.Report.{heard_in};
ghost use Rattle.m2_script.specs.Outcome.{all_heard, left_in};
ghost use Rattle.m2_script.specs.Script.{RunNow};
ghost use Rattle.m2_script.specs.Ended.{EndsWith};

use crate::TurnCallsList;
use crate::ending::end_all;
use crate::left::left_over;
use crate::turns::logs_of;
use crate::ways::ways_of;
use m2_bytes::NoMemory;
use m2_cluster::Cluster;
use m2_dispatch::LogDispatcher;
use m2_fabric::Port;
use m2_scenario::{Link, LogsList};
use std::alloc::Global;

/// What came of a scenario: of each node, in the scenario's order, what its dispatchers were called with, in order;
/// and how many posts weren't dispatched, over all lossless links of which neither end was marked down.
#[derive(Debug, Drop)]
pub struct Outcome {
    pub logs: LogsList,
    pub left: u64,
}

/// Ends the nodes of a run that has these links and had these calls, in the order of the turns, and tells what came of
/// it. Err is want of memory, or a number of posts above the greatest; the nodes are ended then too.
pub fn outcome_of<P: Port>(
    alloc: Global,
    links: &[Link],
    cluster: Cluster<P, LogDispatcher>,
    calls: TurnCallsList,
) -> Result<Outcome, NoMemory>
    ensures heard { IfOk result (λ o. (s : RunNow (List Logged)) → EndsWith cluster calls.items s → map heard_in o.logs.items ≡ all_heard heard_by s) }
    ensures left { IfOk result (λ o. (s : RunNow (List Logged)) → EndsWith cluster calls.items s → o.left ≡ left_in heard_by links.now s) }
{
    let ways = ways_of(alloc, links, &cluster);
    let ended = end_all(alloc, cluster);
    let ways = ways?;
    let logs = logs_of(alloc, calls.as_slice(), ended?)?;
    let left = left_over(ways.as_slice(), logs.as_slice())?;
    Ok(Outcome { logs, left })
}
