//! The lines so far, and what is counted of them.

ghost use Rattle.std.specs.Prelude.{◌≡◌, ◌<◌, ◌++◌, ◌∷◌, [], map, MatchResult};
ghost use Rattle.std.specs.List.{list_any};
ghost use Rattle.m2_scenario.specs.Counts.{counts_of, Permit};
ghost use Rattle.m2_scenario.specs.Draft.{draft_line, is_step_of};
ghost use Rattle.m2_scenario.specs.Plan.{IsAmong, step_of};

use crate::counts::Counts;
use crate::limits::MOST_NODES;
use crate::line::{Line, LineList};
use m2_bytes::{Items, NoMemory};
use std::alloc::Global;
use std::marker::Model;

// The node of whose plan a line is a step.
fn step_of(line: &Line) -> Option<u32>
    ensures { result ≡ step_of (draft_line line.now) }
{
    match line {
        Line::Post { a, .. } | Line::Dial { a, .. } | Line::Down { a, .. } => Some(*a),
        Line::Cut { .. }
        | Line::Turn { .. }
        | Line::Flow { .. }
        | Line::Fault { .. }
        | Line::Settle { .. } => None,
    }
}

// The lines so far, with the counts that limits speak of, and a look-up of the nodes with a step.
#[derive(Debug, Drop)]
pub(crate) struct Plan {
    lines: LineList,
    counts: Counts,
    planned: [bool; MOST_NODES],
}

impl Model for Plan {
    ghost use Rattle.std.specs.Prelude.{List, map};
    ghost use Rattle.m2_scenario.specs.Draft.{DraftLine, draft_line};
    ghost use Rattle.m2_scenario.specs.Plan.{IsCounted};

    ghost Value = { List DraftLine };

    ghost view = { λ p. map draft_line p.lines.items };

    ghost invariant = { λ p. IsCounted (map draft_line p.lines.items) p.counts p.planned };
}

impl Plan {
    pub(crate) fn empty(alloc: Global) -> Plan
        ensures { result ≡ [] }
    {
        Plan {
            lines: Items::empty(alloc),
            counts: Counts::none(),
            planned: [false; MOST_NODES],
        }
    }

    pub(crate) fn counts(&self) -> Counts
        ensures { result ≡ counts_of self.now }
    {
        self.counts
    }

    // Whether the node at this place has a step: a post, a dial or a down.
    pub(crate) fn has_step_of(&self, a: u32) -> bool
        requires { a < MOST_NODES }
        ensures { result ≡ list_any (is_step_of a) self.now }
    {
        self.planned[a as usize]
    }

    pub(crate) fn push(&mut self, line: Line) -> Result<(), NoMemory>
        requires room { Permit (counts_of self.old) (draft_line line) }
        requires among { IsAmong MOST_NODES (draft_line line) }
        ensures { MatchResult result (λ _. self.new ≡ self.old ++ draft_line line ∷ []) (λ _. self.new ≡ self.old) }
    {
        let counts = self.counts.with(&line);
        let step = step_of(&line);
        match self.lines.push(line) {
            Ok(()) => {}
            Err(_) => return Err(NoMemory),
        }
        self.counts = counts;
        match step {
            Some(a) => self.planned[a as usize] = true,
            None => {}
        }
        Ok(())
    }

    pub(crate) fn into_list(self) -> LineList
        ensures { map draft_line result.items ≡ self }
    {
        self.lines
    }
}
