//! A scenario's run.

ghost use Rattle.std.specs.Prelude.{◌≡◌, IfOk, List, map};
ghost use Rattle.m2_scenario.specs.m2_dispatch.Heard.{heard_by};
ghost use Rattle.m2_scenario.specs.Report.{heard_in};
ghost use Rattle.m2_scenario.specs.Draft.{draft_line};
ghost use Rattle.m2_scenario.specs.Valid.{IsSound};
ghost use Rattle.m2_exact.specs.m2_script.Outcome.{all_heard, left_in};
ghost use Rattle.m2_cli.specs.Run.{IsOutcome};
ghost use Rattle.m2_promise.specs.Posted.{IsFirst};

use m2_bytes::NoMemory;
use m2_exact::{Outcome, Run, addresses, clear_all, cluster_of, outcome_of};
use m2_fabric::{CutPort, SimFabric, SimPort};
use m2_promise::{first_can_be_done, lines_fit, promises_are_kept};
use m2_scenario::{Line, LineList, Link, LinkList, Node, NodeList};
use std::alloc::Global;

/// Runs a scenario's lines over its nodes and links, and tells what came of it. The messages of the posts are moved into
/// the records' plans. Err is want of memory.
pub fn run(
    alloc: Global,
    nodes: &NodeList,
    links: &LinkList,
    lines: LineList,
) -> Result<Outcome, NoMemory>
    requires { IsSound nodes.now.items links.now.items (map draft_line lines.items) }
    ensures { IfOk result (λ o. IsOutcome nodes.now.items links.now.items lines.items o) }
{
    first_can_be_done::<CutPort<SimPort>>();
    promises_are_kept::<CutPort<SimPort>>();
    lines_fit(lines.as_slice());
    let mut run = begin(alloc, nodes.as_slice(), links.as_slice(), lines.as_slice())?;
    match run.lines(links.as_slice(), nodes.len() as u32, lines) {
        Ok(()) => end(alloc, links.as_slice(), run),
        Err(NoMemory) => {
            let (cluster, _calls) = run.into_parts();
            clear_all(cluster);
            Err(NoMemory)
        }
    }
}

/// The run before its first line.
fn begin(
    alloc: Global,
    nodes: &[Node],
    links: &[Link],
    lines: &[Line],
) -> Result<Run<CutPort<SimPort>>, NoMemory>
    requires { IsSound nodes.now links.now (map draft_line lines.now) }
    ensures { IfOk result (λ r. IsFirst nodes.now links.now lines.now r) }
{
    let addrs = addresses(alloc, nodes)?;
    let cluster = cluster_of(alloc, nodes, links, lines)?;
    Ok(Run::new(alloc, cluster, SimFabric::new(alloc, addrs)))
}

/// What came of the run.
fn end(alloc: Global, links: &[Link], run: Run<CutPort<SimPort>>) -> Result<Outcome, NoMemory>
    ensures heard { IfOk result (λ o. map heard_in o.logs.items ≡ all_heard heard_by run) }
    ensures left { IfOk result (λ o. o.left ≡ left_in heard_by links.now run) }
{
    let (cluster, calls) = run.into_parts();
    outcome_of(alloc, links, cluster, calls)
}
