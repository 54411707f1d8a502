//! `run FILE`: the nodes of a scenario on threads.

ghost use Rattle.std.specs.Prelude.{◌≡◌, true, IfErr, IfOk, map, []};
ghost use Rattle.m2_cli.specs.Printout.{IsPrintout, IsPrintoutBy};
ghost use Rattle.m2_cli.specs.Threads.{CountsNoOther, PlayComesTo, PreparesThreads, ThreadsComeTo, names_in, nodes_in, status_by_left};
ghost use Rattle.m2_cli.specs.declared.status.Status.TheVariants as status;
ghost use Rattle.m2_edge.specs.Whole.{HasReadCause};
ghost use Rattle.m2_scenario.specs.Draft.{Draft, IsMade};
ghost use Rattle.m2_scenario.specs.Report.{AreLogsOf, heard_in, name_of, report_of};
ghost use Rattle.m2_scenario.specs.Valid.{IsSound, IsValid};

use crate::printout::{Printout, refuse, with_line};
use crate::status::Status;
use m2_bytes::{Blob, Items, NoMemory};
use m2_edge::{Clock, Gate, ReadFault, Source, Words, read_whole};
use m2_fabric::{Fabric, Port};
use m2_run::{Outcome, RunFault, Unobserved, lines_post_of_types, run};
use m2_scenario::{LinkList, LogsList, NodeList, Scenario, report};
use m2_scenario_text::{BadScenario, MOST_BYTES, read};
use m2_weave::Unfit;
use std::alloc::Global;
use std::sync::Wait;
use std::thread::Threads;

/// Reads the file to its end or to the byte past the limit, and runs its nodes.
pub(crate) fn prepare_threads<R, S, F, C, W, G>(
    rt: &R,
    alloc: Global,
    src: &mut S,
    file: &str,
    fabric: &mut F,
    clock: &C,
    words: &mut W,
    gate: &G,
) -> Result<Printout, ReadFault>
where
    R: Threads + Wait + Send + Sync + Copy,
    S: Source,
    F: Fabric,
    F::Port: Send,
    <F::Port as Port>::End: Send,
    C: Clock,
    W: Words,
    G: Gate,
    ensures causes { HasReadCause result (S.seen src.old).faults (S.seen src.new).faults }
    ensures inputs { (S.seen src.new).inputs ≡ (S.seen src.old).inputs }
    ensures prepares { PreparesThreads result (C.may_give clock.now) (F.seen fabric.old) (F.seen fabric.new) file.now (S.seen src.old) (S.seen src.new) }
{
    let bytes = read_whole(alloc, src, file, MOST_BYTES + 1)?;
    let printout = play_bytes(rt, alloc, bytes.as_slice(), fabric, clock, words, gate)?;
    Ok(printout)
}

/// Runs the nodes of the scenario that the bytes spell.
fn play_bytes<R, F, C, W, G>(
    rt: &R,
    alloc: Global,
    bytes: &[u8],
    fabric: &mut F,
    clock: &C,
    words: &mut W,
    gate: &G,
) -> Result<Printout, NoMemory>
where
    R: Threads + Wait + Send + Sync + Copy,
    F: Fabric,
    F::Port: Send,
    <F::Port as Port>::End: Send,
    C: Clock,
    W: Words,
    G: Gate,
    ensures ok { IfOk result (IsPrintoutBy (names_in bytes.now) (ThreadsComeTo (C.may_give clock.now) (F.seen fabric.old) (F.seen fabric.new) bytes.now)) }
    ensures err { IfErr result (λ _. CountsNoOther (nodes_in bytes.now) (F.seen fabric.old) (F.seen fabric.new)) }
{
    match read(alloc, bytes, true) {
        Ok(scenario) => play_scenario(rt, alloc, scenario, fabric, clock, words, gate),
        Err(BadScenario::BadLine { line, flaw }) => refuse(alloc, line, flaw.kind().number()),
        Err(BadScenario::NoMemory) => Err(NoMemory),
    }
}

/// Runs the nodes of a scenario.
fn play_scenario<R, F, C, W, G>(
    rt: &R,
    alloc: Global,
    scenario: Scenario,
    fabric: &mut F,
    clock: &C,
    words: &mut W,
    gate: &G,
) -> Result<Printout, NoMemory>
where
    R: Threads + Wait + Send + Sync + Copy,
    F: Fabric,
    F::Port: Send,
    <F::Port as Port>::End: Send,
    C: Clock,
    W: Words,
    G: Gate,
    requires { IsValid scenario }
    ensures ok { IfOk result (λ p. (d : Draft) → IsMade scenario d →
        IsPrintoutBy (map name_of d.nodes) (PlayComesTo (C.may_give clock.now) (F.seen fabric.old) (F.seen fabric.new) d) p) }
    ensures err { IfErr result (λ _. CountsNoOther scenario.nodes.items (F.seen fabric.old) (F.seen fabric.new)) }
{
    let Scenario {
        nodes,
        links,
        lines,
        limit,
    } = scenario;
    lines_post_of_types(lines.as_slice());
    let ran = run(
        rt,
        alloc,
        nodes.as_slice(),
        links.as_slice(),
        lines,
        limit,
        fabric,
        clock,
        words,
        gate,
        &mut Unobserved,
    );
    match ran {
        Ok(Outcome { logs, left }) => tell(alloc, nodes, links, limit, &logs, left),
        Err(RunFault::NoMemory) => Err(NoMemory),
        Err(RunFault::Bind { node }) => with_line(
            alloc,
            nodes.as_slice(),
            Status::BindFault { node },
            Blob::empty(alloc),
        ),
        Err(RunFault::Unfit(byte)) => with_line(
            alloc,
            nodes.as_slice(),
            unfit_status(byte),
            Blob::empty(alloc),
        ),
    }
}

/// The status where a link has no history, for this byte.
fn unfit_status(byte: Unfit) -> Status
    ensures { result ≡ status.Unfit byte.socket byte.opener byte.place byte.why }
{
    Status::Unfit {
        socket: byte.socket,
        opener: byte.opener,
        place: byte.place,
        why: byte.why,
    }
}

/// The sorted report of these logs, with the status.
fn tell(
    alloc: Global,
    nodes: NodeList,
    links: LinkList,
    limit: u64,
    logs: &LogsList,
    left: u64,
) -> Result<Printout, NoMemory>
    requires sound { IsSound nodes.items links.items [] }
    requires logs { AreLogsOf nodes.items logs.now.items }
    ensures { IfOk result (λ p. IsPrintout (map name_of nodes.items) p (status_by_left left) (report_of true nodes.items (map heard_in logs.now.items))) }
{
    let scenario = Scenario {
        nodes,
        links,
        lines: Items::empty(alloc),
        limit,
    };
    let mut text = Blob::empty(alloc);
    report(alloc, &scenario, logs, true, &mut text)?;
    with_line(alloc, scenario.nodes.as_slice(), status_by_left(left), text)
}

/// Done where no post is left.
fn status_by_left(left: u64) -> Status
    ensures { result ≡ status_by_left left }
{
    if left == 0 {
        Status::Done
    } else {
        Status::Stalled { left }
    }
}
