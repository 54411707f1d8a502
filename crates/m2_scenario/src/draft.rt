//! The scenario so far.

ghost use Rattle.std.specs.Prelude.{◌≡◌, ◌<◌, false, Some, IfSome, MatchResult, OnOk, length, position};
ghost use Rattle.std.specs.List.{list_any};
ghost use Rattle.m2_scenario.specs.Draft.{draft_line, is_named, is_at, are_joined, is_step_of};
ghost use Rattle.m2_scenario.specs.Draft.{no_lines, with_node, with_link, with_line, without_start, with_limit, IsMade};
ghost use Rattle.m2_scenario.specs.Counts.{counts_of, with_one_more, Permit};
ghost use Rattle.m2_scenario.specs.Valid.{IsLine, IsLink, HasCenters, HasMsgr2, IsValid};

use crate::counts::Counts;
use crate::limits::{MOST_LINKS, MOST_NODES, USUAL_LIMIT};
use crate::line::Line;
use crate::link::Link;
use crate::link_table::LinkTable;
use crate::node::Node;
use crate::node_table::NodeTable;
use crate::plan::Plan;
use crate::scenario::Scenario;
use m2_addr::Addr;
use m2_bytes::NoMemory;
use std::alloc::Global;
use std::marker::Model;

/// Nodes, links and lines so far, and the limit in milliseconds if one was set. What it has is valid
/// at any time, and a push whose Err tells want of memory leaves it as it was.
///
/// [`empty`](Draft::empty) begins one. [`push_node`](Draft::push_node),
/// [`push_link`](Draft::push_link), [`push_line`](Draft::push_line), [`stop`](Draft::stop) and
/// [`set_limit`](Draft::set_limit) add to it. The other calls look things up, in time that doesn't
/// grow with what it has. [`into_scenario`](Draft::into_scenario) ends it.
#[derive(Debug, Drop)]
pub struct Draft {
    nodes: NodeTable,
    links: LinkTable,
    plan: Plan,
    limit: Option<u64>,
}

impl Model for Draft {
    ghost use Rattle.m2_scenario.specs.Draft as model;
    ghost use Rattle.m2_scenario.specs.Valid.{IsSound};

    ghost Value = { model.Draft };

    ghost view = { λ d. record { nodes = d.nodes; links = d.links; lines = d.plan; limit = d.limit } };

    ghost invariant = { λ d. IsSound d.nodes d.links d.plan };
}

impl Draft {
    /// Nothing so far. Takes no memory.
    #[tactic(auto, using(crate::proofs::Sound::nothing_sound))]
    pub fn empty(alloc: Global) -> Draft
        ensures { result ≡ no_lines }
    {
        Draft {
            nodes: NodeTable::empty(alloc),
            links: LinkTable::empty(alloc),
            plan: Plan::empty(alloc),
            limit: None,
        }
    }

    /// The nodes, in order.
    pub fn nodes(&self) -> &[Node]
        ensures { result.now ≡ self.now.nodes }
    {
        self.nodes.as_slice()
    }

    /// The links, in order.
    pub fn links(&self) -> &[Link]
        ensures { result.now ≡ self.now.links }
    {
        self.links.as_slice()
    }

    /// The limit in milliseconds, if one was set.
    pub fn limit(&self) -> Option<u64>
        ensures { result ≡ self.now.limit }
    {
        self.limit
    }

    /// The place of the node of this name, from 0; none exactly where no node has it.
    pub fn place(&self, name: &[u8]) -> Option<u32>
        ensures value { result ≡ position (is_named name.now) self.now.nodes }
        ensures below { IfSome result (λ a. a < length self.now.nodes) }
    {
        match self.nodes.place(name) {
            Some(at) => Some(at as u32),
            None => None,
        }
    }

    /// Whether a node has this name.
    pub fn has_name(&self, name: &[u8]) -> bool
        ensures { result ≡ list_any (is_named name.now) self.now.nodes }
    {
        self.nodes.has_name(name)
    }

    /// Whether a node stands at this ip and port.
    pub fn has_socket(&self, at: Addr) -> bool
        ensures { result ≡ list_any (is_at at) self.now.nodes }
    {
        self.nodes.has_socket(at)
    }

    /// Whether a link joins the nodes at these places.
    pub fn joins(&self, a: u32, b: u32) -> bool
        requires first { a < length self.now.nodes }
        requires second { b < length self.now.nodes }
        ensures { result ≡ are_joined self.now.links a b }
    {
        self.links.joins(a, b)
    }

    /// Whether the node at this place has a step: a post, a dial or a down.
    pub fn has_step_of(&self, a: u32) -> bool
        requires { a < length self.now.nodes }
        ensures { result ≡ list_any (is_step_of a) self.now.lines }
    {
        self.plan.has_step_of(a)
    }

    /// What the limits count of its lines.
    pub fn counts(&self) -> Counts
        ensures { result ≡ counts_of self.now.lines }
    {
        self.plan.counts()
    }

    /// Puts a node last that stands apart from those above.
    pub fn push_node(&mut self, alloc: Global, node: Node) -> Result<(), NoMemory>
        requires room { length self.old.nodes < MOST_NODES }
        requires centers { HasCenters node }
        requires msgr2 { HasMsgr2 node }
        requires names { list_any (is_named node.name) self.old.nodes ≡ false }
        requires sockets { list_any (is_at node.at) self.old.nodes ≡ false }
        ensures { MatchResult result (λ _. self.new ≡ with_node self.old node) (λ _. self.new ≡ self.old) }
    {
        self.nodes.push(alloc, node)
    }

    /// Puts a link last of two nodes that aren't joined yet.
    pub fn push_link(&mut self, link: Link) -> Result<(), NoMemory>
        requires room { length self.old.links < MOST_LINKS }
        requires fits { IsLink (length self.old.nodes) link }
        requires first { are_joined self.old.links link.a link.b ≡ false }
        ensures { MatchResult result (λ _. self.new ≡ with_link self.old link) (λ _. self.new ≡ self.old) }
    {
        self.links.push(link)
    }

    /// Puts a line last that the limits and the links permit.
    #[tactic(auto, using(crate::proofs::Sound::line_kept, crate::proofs::Sound::step_among))]
    pub fn push_line(&mut self, line: Line) -> Result<(), NoMemory>
        requires fits { IsLine (length self.old.nodes) self.old.links (draft_line line) }
        requires room { Permit (counts_of self.old.lines) (draft_line line) }
        ensures counts { OnOk result (counts_of self.new.lines ≡ with_one_more (counts_of self.old.lines) (draft_line line)) }
        ensures line { MatchResult result (λ _. self.new ≡ with_line self.old (draft_line line)) (λ _. self.new ≡ self.old) }
    {
        self.plan.push(line)
    }

    /// Has a node not started.
    pub fn stop(&mut self, a: u32)
        requires { a < length self.old.nodes }
        ensures { self.new ≡ without_start a self.old }
    {
        self.nodes.stop(a as usize);
    }

    /// Sets the limit, in milliseconds.
    pub fn set_limit(&mut self, milliseconds: u64)
        ensures { self.new ≡ with_limit milliseconds self.old }
    {
        self.limit = Some(milliseconds);
    }

    /// The scenario. Where no limit was set it has [`USUAL_LIMIT`].
    pub fn into_scenario(self) -> Scenario
        ensures made { IsMade result self }
        ensures valid { IsValid result }
    {
        Scenario {
            nodes: self.nodes.into_list(),
            links: self.links.into_list(),
            lines: self.plan.into_list(),
            limit: self.limit.unwrap_or(USUAL_LIMIT),
        }
    }
}
