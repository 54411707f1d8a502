//! `load N SEED`: generated load, and how much of it was dispatched.

ghost use Rattle.std.specs.Prelude.{◌≡◌, ◌≤◌, IfOk, length, map, sum_by, []};
ghost use Rattle.m2_edge.specs.Source.{SeenSource};
ghost use Rattle.m2_scenario.specs.Report.{heard_in};
ghost use Rattle.m2_scenario.specs.declared.limits.TheConstants.{MOST_POSTS};
ghost use Rattle.m2_cli.specs.Edge.{edge};
ghost use Rattle.m2_cli.specs.Load.{load_lines, IsCounted, KeepsLoad, LoadComesTo, RunsLoad};
ghost use Rattle.m2_cli.specs.Printout.{IsPrintoutBy};
ghost use Rattle.m2_cli.specs.Verdict.{status_by_count};
ghost use Rattle.m2_cli.specs.Work.{Works};

use crate::one_run::scenarios_have_one_run;
use crate::print::{print, say_fixed};
use crate::printout::{Printout, status_by_count, with_line};
use crate::run;
use crate::status::Status;
use m2_bytes::{Blob, NoMemory, put_decimal};
use m2_edge::Sink;
use m2_exact::Outcome;
use m2_scenario::{
    LogsList, Scenario, calls_and_left_are_posts, generate, posts_are_as_many_as_asked,
};
use std::alloc::Global;

/// Runs generated load, and prints how many messages were posted, dispatched and left. It touches no source.
pub(crate) fn load<O: Sink, E: Sink>(
    alloc: Global,
    posts: u32,
    seed: u64,
    out: &mut O,
    err: &mut E,
) -> Status
    requires least { 1 ≤ posts }
    requires most { posts ≤ MOST_POSTS }
    ensures works { (source : SeenSource) → Works [] (RunsLoad posts seed) result (edge source (O.seen out.old) (E.seen err.old))
        (edge source (O.seen out.new) (E.seen err.new)) }
    ensures order { (source : SeenSource) → KeepsLoad posts seed result (edge source (O.seen out.old) (E.seen err.old))
        (edge source (O.seen out.new) (E.seen err.new)) }
{
    calls_and_left_are_posts();
    posts_are_as_many_as_asked();
    match prepare_load(alloc, posts, seed) {
        Ok(printout) => print(&printout, out, err),
        Err(NoMemory) => say_fixed(err, Status::NoMemory),
    }
}

/// Runs the load, and makes what is to be printed.
fn prepare_load(alloc: Global, posts: u32, seed: u64) -> Result<Printout, NoMemory>
    requires least { 1 ≤ posts }
    requires most { posts ≤ MOST_POSTS }
    ensures { IfOk result (IsPrintoutBy [] (LoadComesTo posts seed)) }
{
    scenarios_have_one_run();
    let counts = run_load(alloc, posts, seed)?;
    let text = lines(alloc, u64::from(posts), counts.dispatched, counts.left)?;
    with_line(alloc, &[], status_by_count(counts.left), text)
}

/// What came of a load.
#[derive(Debug, Drop)]
struct LoadCounts {
    dispatched: u64,
    left: u64,
}

/// Runs the load; how many calls dispatchers had, and how many posts are left.
fn run_load(alloc: Global, posts: u32, seed: u64) -> Result<LoadCounts, NoMemory>
    requires least { 1 ≤ posts }
    requires most { posts ≤ MOST_POSTS }
    ensures { IfOk result (IsCounted posts seed) }
{
    let Scenario {
        nodes,
        links,
        lines,
        limit: _,
    } = generate(alloc, posts, seed)?;
    let Outcome { logs, left } = run(alloc, &nodes, &links, lines)?;
    let dispatched = calls_in(&logs)?;
    Ok(LoadCounts { dispatched, left })
}

/// How many calls these logs have together. Err where they are more than a `u64` counts, for which there
/// is no memory.
fn calls_in(logs: &LogsList) -> Result<u64, NoMemory>
    ensures { IfOk result (λ n. n ≡ sum_by length (map heard_in logs.now.items)) }
{
    let mut count: u64 = 0;
    'logs: for log in logs.as_slice() {
        count = match count.checked_add(log.len() as u64) {
            Some(sum) => sum,
            None => return Err(NoMemory),
        };
    }
    Ok(count)
}

/// The three lines.
fn lines(alloc: Global, posted: u64, dispatched: u64, left: u64) -> Result<Blob, NoMemory>
    ensures { IfOk result (λ b. b.bytes ≡ load_lines posted dispatched left) }
{
    let mut text = Blob::empty(alloc);
    text.push_all(b"posted ")?;
    put_decimal(&mut text, posted)?;
    text.push_all(b"\ndispatched ")?;
    put_decimal(&mut text, dispatched)?;
    text.push_all(b"\nleft ")?;
    put_decimal(&mut text, left)?;
    text.push_all(b"\n")?;
    Ok(text)
}
