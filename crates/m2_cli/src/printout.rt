//! What is to be printed, made before anything is written.

ghost use Rattle.std.specs.Prelude.{◌≡◌, IfOk, map, []};
ghost use Rattle.m2_cli.specs.declared.status.Status.TheVariants as statuses;
ghost use Rattle.m2_cli.specs.Verdict.{ComesTo, RunComesTo, status_by_count};
ghost use Rattle.m2_cli.specs.Printout.{IsPrintout, IsPrintoutBy, PreparesFile};
ghost use Rattle.m2_edge.specs.Whole.{HasReadCause};
ghost use Rattle.m2_scenario.specs.Report.{name_of, report_of};
ghost use Rattle.m2_scenario.specs.Draft.{Draft, IsMade};
ghost use Rattle.m2_scenario.specs.Valid.{IsValid};

use crate::one_run::scenarios_have_one_run;
use crate::run;
use crate::status::{Status, line};
use m2_bytes::{Blob, Items, NoMemory};
use m2_edge::{ReadFault, Source, read_whole};
use m2_exact::Outcome;
use m2_scenario::{Node, Scenario, report};
use m2_scenario_text::{BadScenario, MOST_BYTES, read};
use std::alloc::Global;

/// How a scenario ends, its report, and the line that standard error is to get.
#[derive(Drop)]
pub(crate) struct Printout {
    pub status: Status,
    pub report: Blob,
    pub line: Blob,
}

/// Reads the file to its end or to the byte past the limit, and runs it.
pub(crate) fn prepare_file<S: Source>(
    alloc: Global,
    src: &mut S,
    file: &str,
) -> Result<Printout, ReadFault>
    ensures causes { HasReadCause result (S.seen src.old).faults (S.seen src.new).faults }
    ensures inputs { (S.seen src.new).inputs ≡ (S.seen src.old).inputs }
    ensures prepares { PreparesFile result file.now (S.seen src.old) (S.seen src.new) }
{
    let bytes = read_whole(alloc, src, file, MOST_BYTES + 1)?;
    let printout = prepare_bytes(alloc, bytes.as_slice())?;
    Ok(printout)
}

/// Runs the scenario that the bytes spell.
fn prepare_bytes(alloc: Global, bytes: &[u8]) -> Result<Printout, NoMemory>
    ensures { IfOk result (IsPrintoutBy [] (ComesTo bytes.now)) }
{
    match read(alloc, bytes, false) {
        Ok(scenario) => prepare_scenario(alloc, scenario),
        Err(BadScenario::BadLine { line, flaw }) => refuse(alloc, line, flaw.kind().number()),
        Err(BadScenario::NoMemory) => Err(NoMemory),
    }
}

/// The printout for a bad line.
pub(crate) fn refuse(alloc: Global, line: u32, kind: u8) -> Result<Printout, NoMemory>
    ensures { IfOk result (λ p. IsPrintout [] p (statuses.BadScenario line kind) []) }
{
    with_line(
        alloc,
        &[],
        Status::BadScenario { line, kind },
        Blob::empty(alloc),
    )
}

/// Runs a scenario over nodes and sockets of its own.
fn prepare_scenario(alloc: Global, scenario: Scenario) -> Result<Printout, NoMemory>
    requires { IsValid scenario }
    ensures { IfOk result (λ p. (d : Draft) → IsMade scenario d → IsPrintoutBy [] (RunComesTo d) p) }
{
    let Scenario {
        nodes,
        links,
        lines,
        limit,
    } = scenario;
    scenarios_have_one_run();
    let Outcome { logs, left } = run(alloc, &nodes, &links, lines)?;
    let scenario = Scenario {
        nodes,
        links,
        lines: Items::empty(alloc),
        limit,
    };
    let mut text = Blob::empty(alloc);
    report(alloc, &scenario, &logs, false, &mut text)?;
    with_line(alloc, &[], status_by_count(left), text)
}

/// Done where no post is left.
pub(crate) fn status_by_count(count: u64) -> Status
    ensures { result ≡ status_by_count count }
{
    if count == 0 {
        Status::Done
    } else {
        Status::Left { count }
    }
}

/// The printout with the status's line, which names one of these nodes.
pub(crate) fn with_line(
    alloc: Global,
    nodes: &[Node],
    status: Status,
    report: Blob,
) -> Result<Printout, NoMemory>
    ensures { IfOk result (λ p. IsPrintout (map name_of nodes.now) p status report.bytes) }
{
    let line = line(alloc, nodes, &status)?;
    Ok(Printout {
        status,
        report,
        line,
    })
}
