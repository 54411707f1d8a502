//! `node NAME ENTITY IP:PORT/NONCE` and options.

ghost use Rattle.std.specs.Prelude.{IfOk};
ghost use Rattle.m2_scenario.specs.Valid.{HasCenters, HasMsgr2};
ghost use Rattle.m2_scenario_text.specs.Taking.{NodeRead, Takes};
ghost use Rattle.m2_scenario_text.specs.NodeLine.{node_of, node_line};

use crate::flaw::{LineFlaw, Wanted, or_want, said, want, want_first};
use crate::node_option::{are_once, options, set_options};
use crate::vocabulary::entity;
use m2_scenario::{Draft, MOST_NODES, Name, Node, Words, is_name, read_address};
use std::alloc::Global;

// The node that the words describe, wherever it stands.
#[tactic(auto, unfolding(crate::specs::NodeLine::node_of))]
fn node_of(alloc: Global, mut words: Words<'_>) -> Result<Node, LineFlaw>
    ensures value { NodeRead result (node_of words.entry) }
    ensures centers { IfOk result HasCenters }
    ensures msgr2 { IfOk result HasMsgr2 }
{
    let count = words.len();
    want(count, Wanted::MoreWords, 3 <= count)?;
    let name = words.take();
    let entity_word = words.take();
    let address_word = words.take();
    let given = options(alloc, count, words)?;
    are_once(given.as_slice())?;
    want(0, Wanted::NodeName, is_name(name))?;
    let at = said(2, Wanted::SocketAddress, read_address(address_word))?;
    let entity = or_want(1, Wanted::EntityType, entity(entity_word))?;
    let mut node = Node::plain(Name::of(alloc, name)?, entity, at);
    set_options(&mut node, given.as_slice())?;
    Ok(node)
}

#[tactic(auto, unfolding(crate::specs::NodeLine::node_line))]
pub(crate) fn node_line(alloc: Global, draft: &mut Draft, words: Words<'_>) -> Result<(), LineFlaw>
    ensures { Takes result (node_line draft.old words.entry) draft.new }
{
    let node = node_of(alloc, words)?;
    want(0, Wanted::NewName, !draft.has_name(node.name.as_slice()))?;
    want(2, Wanted::NewSocket, !draft.has_socket(node.at))?;
    want_first(Wanted::FewerNodes, draft.nodes().len() < MOST_NODES)?;
    draft.push_node(alloc, node)?;
    Ok(())
}
