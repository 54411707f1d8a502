//! The links of the lines so far.

ghost use Rattle.std.specs.Prelude.{◌≡◌, ◌<◌, ◌++◌, ◌∷◌, [], length, MatchResult};
ghost use Rattle.m2_scenario.specs.Draft.{are_joined};
ghost use Rattle.m2_scenario.specs.Link.{cell};

use crate::limits::{MOST_NODES, MOST_PAIRS};
use crate::link::{Link, LinkList};
use m2_bytes::{Items, NoMemory};
use std::alloc::Global;
use std::marker::Model;

// The links so far, with a look-up of whether two nodes are joined: a row and a column for each
// place.
#[derive(Debug, Drop)]
pub(crate) struct LinkTable {
    links: LinkList,
    joined: [bool; MOST_PAIRS],
}

impl Model for LinkTable {
    ghost use Rattle.std.specs.Prelude.{List};
    ghost use Rattle.m2_scenario.specs.declared.link.Link.{Link};
    ghost use Rattle.m2_scenario.specs.Link.{IsLookUp};

    ghost Value = { List Link };

    ghost view = { λ t. t.links.items };

    ghost invariant = { λ t. IsLookUp t.links.items t.joined };
}

impl LinkTable {
    pub(crate) fn empty(alloc: Global) -> LinkTable
        ensures { result ≡ [] }
    {
        LinkTable {
            links: Items::empty(alloc),
            joined: [false; MOST_PAIRS],
        }
    }

    pub(crate) fn as_slice(&self) -> &[Link]
        ensures { result.now ≡ self.now }
    {
        self.links.as_slice()
    }

    // Whether a link joins the nodes at these places.
    pub(crate) fn joins(&self, a: u32, b: u32) -> bool
        requires first { a < MOST_NODES }
        requires second { b < MOST_NODES }
        ensures { result ≡ are_joined self.now a b }
    {
        self.joined[cell(a, b)]
    }

    pub(crate) fn push(&mut self, link: Link) -> Result<(), NoMemory>
        requires first { link.a < MOST_NODES }
        requires second { link.b < MOST_NODES }
        ensures { MatchResult result (λ _. self.new ≡ self.old ++ link ∷ []) (λ _. self.new ≡ self.old) }
    {
        match self.links.push(link) {
            Ok(()) => {}
            Err(_) => return Err(NoMemory),
        }
        self.joined[cell(link.a, link.b)] = true;
        self.joined[cell(link.b, link.a)] = true;
        Ok(())
    }

    pub(crate) fn into_list(self) -> LinkList
        ensures { result.items ≡ self }
    {
        self.links
    }
}

/// The cell of a row and a column of a table that has a cell for each two places of nodes.
pub fn cell(a: u32, b: u32) -> usize
    requires first { a < MOST_NODES }
    requires second { b < MOST_NODES }
    ensures value { result ≡ cell a b }
    ensures within { result < MOST_PAIRS }
{
    a as usize * MOST_NODES + b as usize
}
