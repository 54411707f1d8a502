//! What holds of a dispatch over every list of calls. These functions do nothing: each stands for the law
//! that its contract names.

ghost use Rattle.m2_dispatch.specs.Laws.{DispatchedInOrder, EachKeyKeepsItsOrder, GreatestPriorityFirst};

/// Of one peer and one key, what was dispatched since the peer's last discard and then what waits is what was
/// put since, in this order: nothing of it is missing, and nothing comes twice. Over discards, what was
/// dispatched is some of what was put, in the same order.
pub fn each_key_keeps_its_order()
    ensures whole { EachKeyKeepsItsOrder }
    ensures ever { DispatchedInOrder }
{}

/// No letter that waits has a greater priority than one that will be dispatched before it.
pub fn greatest_priority_first()
    ensures { GreatestPriorityFirst }
{}
