//! The records of a scenario's nodes before its first line.

ghost use Rattle.std.specs.Prelude.{◌≡◌, ◌+◌, ◌-◌, ◌<◌, ◌≤◌, ◌++◌, [], IfOk, length, map, vec_capacity, vec_len};
ghost use Rattle.std.specs.Option.{option_map, option_to_list};
ghost use Rattle.m2_script.specs.Made.{facts_of, other_of, over, records_of, roomless};

use m2_bytes::NoMemory;
use m2_fabric::End;
use m2_journal::NodeFacts;
use m2_policy::{Policy, profile};
use m2_record::Record;
use m2_scenario::{Link, MOST_NODES, Node};
use m2_shared::PeerType;
use std::alloc::Global;

/// How long a node waits before a new connect after a fault, in milliseconds.
const WAIT: u64 = 1;

/// The other node of a link, by its place, and the policy towards it.
#[derive(Clone, Copy, Debug, PartialEq, Eq)]
pub struct Towards {
    pub place: u32,
    pub policy: Policy,
}

/// What a node tells each of its records.
fn facts(node: &Node, number: u32, word: u64) -> NodeFacts
    ensures { result ≡ facts_of node.now number word }
{
    NodeFacts {
        entity: node.entity,
        number,
        supports: node.supports,
        requires_: node.requires_,
        fast: node.fast.copy(),
        first_wait: WAIT,
        most_wait: WAIT,
        salt: (word % 65_536) as u16,
        rules: profile(),
    }
}

/// The other node of a link of the node of this number; none where that is none of its two.
pub fn other_of(number: u32, link: &Link) -> Option<Towards>
    ensures { result ≡ other_of number link.now }
{
    if link.a == number {
        Some(Towards {
            place: link.b,
            policy: link.of_a,
        })
    } else if link.b == number {
        Some(Towards {
            place: link.a,
            policy: link.of_b,
        })
    } else {
        None
    }
}

/// The record of the node of this number over a link, with nothing planned and nothing done; none where the node
/// is none of its two. `word` is a word that was drawn for the node. Takes no memory.
pub fn record_over<E: End>(
    alloc: Global,
    nodes: &[Node],
    number: u32,
    word: u64,
    link: &Link,
) -> Option<Record<E>>
    requires { length nodes.now ≤ MOST_NODES }
    ensures { option_map roomless result ≡ over nodes.now number word (other_of number link.now) }
{
    let Some(t) = other_of(number, link) else {
        return None;
    };
    match nodes.get(number as usize) {
        None => None,
        Some(mine) => match nodes.get(t.place as usize) {
            None => None,
            Some(peer) => Some(Record::new(
                alloc,
                mine.at,
                peer.at,
                t.place,
                t.policy,
                facts(mine, number, word),
                PeerType::of_peer(peer.entity),
            )),
        },
    }
}

/// The records of the node of this number, in the order of its links, with nothing planned and nothing done. `word`
/// is a word that was drawn for the node. Err is want of memory.
pub fn records<E: End>(
    alloc: Global,
    nodes: &[Node],
    links: &[Link],
    number: u32,
    word: u64,
) -> Result<Vec<Record<E>>, NoMemory>
    requires { length nodes.now ≤ MOST_NODES }
    ensures { IfOk result (λ rs. map roomless rs.items ≡ records_of nodes.now links.now number word) }
{
    let mut records = room_for(alloc, links.len())?;
    for link in links {
        add(&mut records, record_over(alloc, nodes, number, word, link));
    }
    Ok(records)
}

/// No records, and room for so many.
fn room_for<E: End>(alloc: Global, count: usize) -> Result<Vec<Record<E>>, NoMemory>
    ensures none { IfOk result (λ rs. rs.items ≡ []) }
    ensures room { IfOk result (λ rs. count ≤ vec_capacity rs - vec_len rs) }
{
    let mut records = Vec::new(alloc);
    match records.reserve(count) {
        Ok(()) => Ok(records),
        Err(_) => {
            records.destroy_empty();
            Err(NoMemory)
        }
    }
}

/// Puts a record last, if there is one.
fn add<E: End>(records: &mut Vec<Record<E>>, r: Option<Record<E>>)
    requires { vec_len records.old < vec_capacity records.old }
    ensures items { map roomless records.new.items ≡ map roomless records.old.items ++ option_to_list (option_map roomless r) }
    ensures room { vec_capacity records.old - vec_len records.old ≤ (vec_capacity records.new - vec_len records.new) + 1 }
{
    match r {
        None => {}
        Some(r) => records.push_reserved(r),
    }
}
