//! The lines of a script, played one by one.

ghost use Rattle.std.specs.Prelude.{◌≡◌, ◌∷◌, ◌<◌, [], IfOk, OnOk, length};
ghost use Rattle.std.specs.List.{flat_map};
ghost use Rattle.m2_run_trace.specs.Acts.{CanDo, CanPlay, Does, Plays, PlaysAll, actor_of, acts_of, acts_to, line_acts, quiet_act, round_acts, rounds_acts, silent_act, step_act, turn_act, turn_acts};
ghost use Rattle.m2_run_trace.specs.Script.{lines_above, lines_behind, next_step};
ghost use Rattle.m2_promise.specs.m2_script.Script.{MOST, both_flow, deeds_of, turn_and_meet};
ghost use Rattle.m2_promise.specs.m2_script.Script as deed;
ghost use Rattle.m2_scenario.specs.Text.{pieces};

use crate::script::{put_step, put_until_step};
use crate::stage::{MemoryRun, Scene, Stage};
use crate::{Marks, put_news, put_settle, put_turn, sockets_left};
use m2_bytes::NoMemory;
use m2_scenario::{Line, LineList, Link};
use std::alloc::Global;

/// Plays all lines, in order, and prints the text with what was done by them.
pub(crate) fn play_all(
    alloc: Global,
    scene: &Scene<'_>,
    stage: &mut Stage,
    text: &[u8],
    lines: LineList,
) -> Result<(), NoMemory>
    requires { CanPlay (acts_of scene.now.nodes.now scene.now.links.now (pieces 10 text.now) lines.items) stage.old.run }
    ensures { OnOk result (PlaysAll scene.now.nodes.now (acts_of scene.now.nodes.now scene.now.links.now (pieces 10 text.now) lines.items) stage.old stage.new) }
{
    let mut rest = text;
    for line in lines.into_vec() {
        rest = play(alloc, scene, stage, rest, line)?;
    }
    let (_step, _rest) = put_above(scene, stage, rest)?;
    Ok(())
}

/// Plays the next line, and prints it with the text above it and with what was done by it; the text behind it.
fn play<'a>(
    alloc: Global,
    scene: &Scene<'_>,
    stage: &mut Stage,
    text: &'a [u8],
    line: Line,
) -> Result<&'a [u8], NoMemory>
    requires { CanPlay (acts_to scene.now.nodes.now scene.now.links.now (pieces 10 text.now) line) stage.old.run }
    ensures plays { OnOk result (PlaysAll scene.now.nodes.now (acts_to scene.now.nodes.now scene.now.links.now (pieces 10 text.now) line) stage.old stage.new) }
    ensures rest { IfOk result (λ rest. pieces 10 rest.now ≡ lines_behind (pieces 10 text.now)) }
{
    let (step, rest) = put_above(scene, stage, text)?;
    play_line(alloc, scene, stage, step, line)?;
    Ok(rest)
}

/// Prints the lines of the text above the next one that is played; that one, and the text behind it.
fn put_above<'a>(
    scene: &Scene<'_>,
    stage: &mut Stage,
    text: &'a [u8],
) -> Result<(&'a [u8], &'a [u8]), NoMemory>
    ensures plays { OnOk result (Plays scene.now.nodes.now (quiet_act scene.now.nodes.now (lines_above (pieces 10 text.now))) stage.old stage.new) }
    ensures step { IfOk result (λ r. r.0.now ≡ next_step (pieces 10 text.now)) }
    ensures rest { IfOk result (λ r. pieces 10 r.1.now ≡ lines_behind (pieces 10 text.now)) }
    ensures run { stage.new.run ≡ stage.old.run }
{
    put_until_step(&mut stage.out, text, scene.nodes, stage.run.cluster())
}

/// Plays a line, and prints it with what was done by it.
fn play_line(
    alloc: Global,
    scene: &Scene<'_>,
    stage: &mut Stage,
    step: &[u8],
    line: Line,
) -> Result<(), NoMemory>
    requires { CanPlay (line_acts scene.now.nodes.now scene.now.links.now step.now line) stage.old.run }
    ensures { OnOk result (PlaysAll scene.now.nodes.now (line_acts scene.now.nodes.now scene.now.links.now step.now line) stage.old stage.new) }
{
    match line {
        Line::Settle { rounds } => play_rounds(alloc, scene, stage, rounds),
        Line::Turn { a } => play_turn(alloc, scene, stage, a),
        _ => play_step(alloc, scene, stage, step, line),
    }
}

/// Plays a line that stands in the text, and prints it with what was done by it.
fn play_step(
    alloc: Global,
    scene: &Scene<'_>,
    stage: &mut Stage,
    step: &[u8],
    line: Line,
) -> Result<(), NoMemory>
    requires { CanDo (deeds_of scene.now.links.now (length scene.now.nodes.now) line) stage.old.run }
    ensures { OnOk result (Plays scene.now.nodes.now (step_act scene.now.links.now (length scene.now.nodes.now) step.now line) stage.old stage.new) }
{
    put_step(&mut stage.out, step)?;
    match actor(&line) {
        Some(node) => act(alloc, scene, stage, node, line),
        None => do_line(scene, &mut stage.run, line),
    }
}

/// The node that does something by a line, if there is one.
fn actor(line: &Line) -> Option<u32>
    ensures { result ≡ actor_of line.now }
{
    match line {
        Line::Post { a, .. } | Line::Dial { a, .. } | Line::Down { a, .. } | Line::Turn { a } => {
            Some(*a)
        }
        Line::Cut { .. } | Line::Flow { .. } | Line::Fault { .. } | Line::Settle { .. } => None,
    }
}

/// Does what a line says.
fn do_line(scene: &Scene<'_>, run: &mut MemoryRun, line: Line) -> Result<(), NoMemory>
    requires { CanDo (deeds_of scene.now.links.now (length scene.now.nodes.now) line) run.old }
    ensures { OnOk result (Does (deeds_of scene.now.links.now (length scene.now.nodes.now) line) run.old run.new) }
{
    run.line(scene.links, scene.count, line)
}

/// Does what a line says, by which this node does something, and prints what that is.
fn act(
    alloc: Global,
    scene: &Scene<'_>,
    stage: &mut Stage,
    node: u32,
    line: Line,
) -> Result<(), NoMemory>
    requires { CanDo (deeds_of scene.now.links.now (length scene.now.nodes.now) line) stage.old.run }
    ensures { OnOk result (Plays scene.now.nodes.now (silent_act (deeds_of scene.now.links.now (length scene.now.nodes.now) line) node) stage.old stage.new) }
{
    let nodes = scene.nodes;
    let marks = Marks::of(
        alloc,
        nodes,
        stage.run.cluster(),
        node,
        stage.sockets.as_slice(),
    )?;
    do_line(scene, &mut stage.run, line)?;
    put_news(
        alloc,
        &mut stage.out,
        nodes,
        stage.run.cluster(),
        node,
        &marks,
    )?;
    stage.sockets = sockets_left(alloc, nodes, stage.run.cluster(), node, &marks)?;
    Ok(())
}

/// So many rounds.
fn play_rounds(
    alloc: Global,
    scene: &Scene<'_>,
    stage: &mut Stage,
    rounds: u32,
) -> Result<(), NoMemory>
    requires { CanPlay (rounds_acts scene.now.nodes.now scene.now.links.now rounds) stage.old.run }
    ensures { OnOk result (PlaysAll scene.now.nodes.now (rounds_acts scene.now.nodes.now scene.now.links.now rounds) stage.old stage.new) }
{
    'rounds: for _ in 0..rounds {
        play_round(alloc, scene, stage)?;
    }
    Ok(())
}

/// One round: everything flows, and then each node takes a turn.
fn play_round(alloc: Global, scene: &Scene<'_>, stage: &mut Stage) -> Result<(), NoMemory>
    requires { CanPlay (round_acts scene.now.nodes.now scene.now.links.now) stage.old.run }
    ensures { OnOk result (PlaysAll scene.now.nodes.now (round_acts scene.now.nodes.now scene.now.links.now) stage.old stage.new) }
{
    put_settle(&mut stage.out)?;
    flow_all(scene, &mut stage.run)?;
    turn_all(alloc, scene, stage)
}

/// Everything flows over all links.
fn flow_all(scene: &Scene<'_>, run: &mut MemoryRun) -> Result<(), NoMemory>
    requires { CanDo (flat_map both_flow scene.now.links.now) run.old }
    ensures { OnOk result (Does (flat_map both_flow scene.now.links.now) run.old run.new) }
{
    'links: for place in 0..scene.links.len() {
        flow_over(scene, run, &scene.links[place])?;
    }
    Ok(())
}

/// Everything flows over a link, in both directions.
fn flow_over(scene: &Scene<'_>, run: &mut MemoryRun, link: &Link) -> Result<(), NoMemory>
    requires { CanDo (both_flow link.now) run.old }
    ensures { OnOk result (Does (both_flow link.now) run.old run.new) }
{
    flow(scene, run, link.a, link.b)?;
    flow(scene, run, link.b, link.a)
}

/// Everything flows from a node to another.
fn flow(scene: &Scene<'_>, run: &mut MemoryRun, a: u32, b: u32) -> Result<(), NoMemory>
    requires { CanDo (deed.flow a b 0 MOST ∷ []) run.old }
    ensures { OnOk result (Does (deed.flow a b 0 MOST ∷ []) run.old run.new) }
{
    do_line(
        scene,
        run,
        Line::Flow {
            a,
            b,
            socket: 0,
            most: u64::MAX,
        },
    )
}

/// Each node takes a turn, in order.
fn turn_all(alloc: Global, scene: &Scene<'_>, stage: &mut Stage) -> Result<(), NoMemory>
    requires { CanPlay (turn_acts scene.now.nodes.now 0 (length scene.now.nodes.now)) stage.old.run }
    ensures { OnOk result (PlaysAll scene.now.nodes.now (turn_acts scene.now.nodes.now 0 (length scene.now.nodes.now)) stage.old stage.new) }
{
    'nodes: for node in 0..scene.count {
        play_turn(alloc, scene, stage, node)?;
    }
    Ok(())
}

/// One turn of a node.
fn play_turn(alloc: Global, scene: &Scene<'_>, stage: &mut Stage, node: u32) -> Result<(), NoMemory>
    requires { CanDo (turn_and_meet node) stage.old.run }
    ensures { OnOk result (Plays scene.now.nodes.now (turn_act scene.now.nodes.now node) stage.old stage.new) }
{
    put_turn(&mut stage.out, scene.nodes, node, stage.run.now())?;
    act(alloc, scene, stage, node, Line::Turn { a: node })
}
