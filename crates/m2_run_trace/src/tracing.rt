//! The trace of a scenario.

ghost use Rattle.std.specs.Prelude.{◌≡◌, IfOk, map};
ghost use Rattle.m2_run_trace.specs.Acts.{CanPlay, acts_of};
ghost use Rattle.m2_run_trace.specs.Tracing.{IsTrace, Traces};
ghost use Rattle.m2_scenario.specs.Draft.{draft_line};
ghost use Rattle.m2_scenario.specs.Valid.{IsSound, IsValid};
ghost use Rattle.m2_promise.specs.Started.{IsFirst};
ghost use Rattle.m2_scenario.specs.Text.{pieces};

use crate::playing::play_all;
use crate::stage::{MemoryRun, Scene, Stage};
use m2_bytes::{Blob, NoMemory};
use m2_fabric::{CutPort, SimFabric, SimPort};
use m2_promise::{Run, addresses, clear_all, cluster_of, first_can_be_done};
use m2_scenario::{Line, LineList, Link, Node, Scenario};
use m2_scenario_text::{BadScenario, Flaw, read};
use std::alloc::Global;

/// Why a text has no trace.
#[derive(Clone, Copy, Debug)]
pub enum Untraced {
    /// Its first bad line, in this way.
    BadLine { line: u32, flaw: Flaw },
    NoMemory,
}

/// The trace of a run of the scenario that a text says: each line of its script as it is played, and under it what the
/// nodes did.
pub fn trace(alloc: Global, bytes: &[u8]) -> Result<Blob, Untraced>
    ensures { Traces result bytes.now }
{
    match read(alloc, bytes, false) {
        Ok(scenario) => match trace_scenario(alloc, bytes, scenario) {
            Ok(text) => Ok(text),
            Err(NoMemory) => Err(Untraced::NoMemory),
        },
        Err(BadScenario::BadLine { line, flaw }) => Err(Untraced::BadLine { line, flaw }),
        Err(BadScenario::NoMemory) => Err(Untraced::NoMemory),
    }
}

/// The same of a scenario with its text.
fn trace_scenario(alloc: Global, text: &[u8], scenario: Scenario) -> Result<Blob, NoMemory>
    requires { IsValid scenario }
    ensures { IfOk result (λ t. IsTrace scenario.nodes.items scenario.links.items scenario.lines.items text.now t.bytes) }
{
    let Scenario {
        nodes,
        links,
        lines,
        limit: _,
    } = scenario;
    let scene = Scene {
        nodes: nodes.as_slice(),
        links: links.as_slice(),
        count: nodes.len() as u32,
    };
    trace_lines(alloc, text, &scene, lines)
}

/// The same of its lines.
fn trace_lines(
    alloc: Global,
    text: &[u8],
    scene: &Scene<'_>,
    lines: LineList,
) -> Result<Blob, NoMemory>
    requires { IsSound scene.now.nodes.now scene.now.links.now (map draft_line lines.items) }
    ensures { IfOk result (λ t. IsTrace scene.now.nodes.now scene.now.links.now lines.items text.now t.bytes) }
{
    let run = begin(alloc, scene.nodes, scene.links, lines.as_slice())?;
    can_be_played(scene, text, lines.as_slice(), &run);
    let mut stage = Stage::new(alloc, run);
    let played = play_all(alloc, scene, &mut stage, text, lines);
    let out = end(stage);
    match played {
        Ok(()) => Ok(out),
        Err(NoMemory) => Err(NoMemory),
    }
}

/// The run before its first line.
fn begin(
    alloc: Global,
    nodes: &[Node],
    links: &[Link],
    lines: &[Line],
) -> Result<MemoryRun, NoMemory>
    requires { IsSound nodes.now links.now (map draft_line lines.now) }
    ensures { IfOk result (IsFirst nodes.now links.now lines.now) }
{
    let addrs = addresses(alloc, nodes)?;
    let cluster = cluster_of(alloc, nodes, links, lines)?;
    Ok(Run::new(alloc, cluster, SimFabric::new(alloc, addrs)))
}

/// All lines of a valid scenario can be played by a run before its first line. For contracts alone.
fn can_be_played(scene: &Scene<'_>, text: &[u8], lines: &[Line], run: &MemoryRun)
    requires sound { IsSound scene.now.nodes.now scene.now.links.now (map draft_line lines.now) }
    requires first { IsFirst scene.now.nodes.now scene.now.links.now lines.now run.now }
    ensures { CanPlay (acts_of scene.now.nodes.now scene.now.links.now (pieces 10 text.now) lines.now) run.entry.now }
{
    first_can_be_done::<CutPort<SimPort>>();
}

/// What is told at last; the nodes are dropped.
fn end(stage: Stage) -> Blob
    ensures { result.bytes ≡ stage.text }
{
    let Stage {
        run,
        sockets: _,
        out,
    } = stage;
    let (cluster, _calls) = run.into_parts();
    clear_all(cluster);
    out
}
