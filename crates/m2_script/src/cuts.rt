//! Where the sockets of nodes break.

ghost use Rattle.std.specs.Prelude.{◌≡◌, ◌++◌, IfOk, OnOk};
ghost use Rattle.std.specs.Option.{option_to_list};
ghost use Rattle.m2_script.specs.Nodes.{cut_in, cuts_of};

use m2_bytes::{Items, NoMemory};
use m2_fabric::{Cut, CutList};
use m2_scenario::{Line, Node};
use std::alloc::Global;

/// The cut that a line tells, if it is of a socket that the node of this number opens.
fn cut_in(nodes: &[Node], number: u32, line: &Line) -> Option<Cut>
    ensures { result ≡ cut_in nodes.now number line.now }
{
    let Line::Cut { a, b, bytes } = line else {
        return None;
    };
    if *a != number {
        return None;
    }
    match nodes.get(*b as usize) {
        None => None,
        Some(to) => Some(Cut {
            to: to.at,
            bytes: *bytes,
        }),
    }
}

/// The cuts of the sockets that the node of this number opens, in the order of their lines.
pub fn cuts_of(
    alloc: Global,
    nodes: &[Node],
    lines: &[Line],
    number: u32,
) -> Result<CutList, NoMemory>
    ensures { IfOk result (λ cuts. cuts.items ≡ cuts_of nodes.now lines.now number) }
{
    let mut cuts = Vec::new(alloc);
    for line in lines {
        add(&mut cuts, cut_in(nodes, number, line))?;
    }
    Ok(Items::from_vec(cuts))
}

/// Puts a cut last, if there is one. Err is want of memory.
fn add(cuts: &mut Vec<Cut>, cut: Option<Cut>) -> Result<(), NoMemory>
    ensures { OnOk result (cuts.new.items ≡ cuts.old.items ++ option_to_list cut) }
{
    if let Some(cut) = cut {
        cuts.push(cut)?;
    }
    Ok(())
}
