//! What the lines of a scenario have its nodes do.

ghost use Rattle.std.specs.Prelude.{◌≡◌, ◌++◌, ◌<◌, ◌∷◌, [], IfOk, OnOk};
ghost use Rattle.m2_node.specs.Homes.{AreStepsByHome, home_at};
ghost use Rattle.m2_node.specs.Planned.{AddsStep, AddsStepOf, AreStepsOf};

use m2_bytes::{Items, NoMemory};
use m2_journal::PlanStep;
use m2_scenario::{Line, LineList, Node};
use m2_script::home;
use std::alloc::Global;

/// A step for the plan of a node's record, and the place of the node that the record is towards.
#[derive(Debug, Drop)]
pub(crate) struct StepTowards {
    pub(crate) peer: u32,
    pub(crate) step: PlanStep,
}

/// The steps of one node, in the order of their lines.
pub(crate) type Steps = Items<StepTowards>;

/// What the lines have each of so many nodes do. The messages are moved out of the lines.
pub(crate) fn steps_of(alloc: Global, nodes: usize, lines: LineList) -> Result<Vec<Steps>, NoMemory>
    ensures { IfOk result (λ all. AreStepsOf nodes lines.items all.items) }
{
    let mut all = no_steps(alloc, nodes)?;
    'lines: for line in lines.into_vec() {
        add_line(&mut all, line)?;
    }
    Ok(all)
}

/// So many nodes of which none does anything.
fn no_steps(alloc: Global, nodes: usize) -> Result<Vec<Steps>, NoMemory>
    ensures { IfOk result (λ all. AreStepsOf nodes [] all.items) }
{
    let mut all = Vec::with_capacity(alloc, nodes)?;
    'nodes: for _ in 0..nodes {
        all.push(Steps::empty(alloc))?;
    }
    Ok(all)
}

/// What a line has a node do goes last among its steps. A line that drives sockets in memory has none do anything.
fn add_line(all: &mut Vec<Steps>, line: Line) -> Result<(), NoMemory>
    ensures { OnOk result (AddsStepOf line all.old.items all.new.items) }
{
    match line {
        Line::Post { a, b, message } => add_step(all, a, b, PlanStep::Post(message)),
        Line::Dial { a, b } => add_step(all, a, b, PlanStep::Dial),
        Line::Down { a, b } => add_step(all, a, b, PlanStep::Down),
        Line::Cut {
            a: _,
            b: _,
            bytes: _,
        } => Ok(()),
        Line::Turn { a: _ } => Ok(()),
        Line::Flow {
            a: _,
            b: _,
            socket: _,
            most: _,
        } => Ok(()),
        Line::Fault {
            a: _,
            b: _,
            socket: _,
        } => Ok(()),
        Line::Settle { rounds: _ } => Ok(()),
    }
}

/// The steps of a node with so many threads, of each thread those towards the peers that are at home there, in order.
pub(crate) fn steps_by_home(
    alloc: Global,
    nodes: &[Node],
    centers: u32,
    steps: Steps,
) -> Result<Vec<Steps>, NoMemory>
    requires { 0 < centers }
    ensures { IfOk result (λ all. AreStepsByHome nodes.now centers steps.items all.items) }
{
    let mut all = no_steps(alloc, centers as usize)?;
    'steps: for step in steps.into_vec() {
        let StepTowards { peer, step } = step;
        add_step(&mut all, home_at(nodes, peer, centers), peer, step)?;
    }
    Ok(all)
}

/// With which of so many threads the node at this place is at home; with the first one where there is no such node.
pub(crate) fn home_at(nodes: &[Node], place: u32, centers: u32) -> u32
    requires { 0 < centers }
    ensures { result ≡ home_at nodes.now centers place }
{
    match nodes.get(place as usize) {
        None => 0,
        Some(node) => home(&node.at, centers),
    }
}

/// A step goes last among those of a node, if there is the node.
fn add_step(all: &mut Vec<Steps>, node: u32, peer: u32, step: PlanStep) -> Result<(), NoMemory>
    ensures { OnOk result (AddsStep node (record { peer = peer; step = step }) all.old.items all.new.items) }
{
    if (node as usize) < all.len() {
        return push_step(&mut all[node as usize], StepTowards { peer, step });
    }
    Ok(())
}

/// A step goes last.
fn push_step(steps: &mut Steps, step: StepTowards) -> Result<(), NoMemory>
    ensures { OnOk result (steps.new.items ≡ steps.old.items ++ step ∷ []) }
{
    match steps.push(step) {
        Ok(()) => Ok(()),
        Err(_) => Err(NoMemory),
    }
}
