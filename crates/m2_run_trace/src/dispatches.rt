//! What a node's dispatchers were called with, as lines.

ghost use Rattle.std.specs.Prelude.{◌≡◌, ◌++◌, OnOk, drop, map};
ghost use Rattle.std.specs.List.{flat_map};
ghost use Rattle.m2_dispatch.specs.Heard.{heard_of};
ghost use Rattle.m2_scenario.specs.Report.{line_of, name_of};
ghost use Rattle.m2_run_trace.specs.Dispatches.{call_line, first_line};

use crate::telling::{Calls, Teller};
use crate::words::name_of;
use m2_bytes::{Blob, NoMemory};
use m2_dispatch::Logged;
use m2_scenario::{Node, put_dispatch, put_reset};

/// Appends the next of the calls that aren't told yet, if there is one.
pub(crate) fn put_next(
    out: &mut Blob,
    teller: &Teller<'_>,
    calls: &mut Calls<'_>,
) -> Result<(), NoMemory>
    ensures text { OnOk result (out.new.bytes ≡ out.old.bytes ++ first_line teller.now calls.old) }
    ensures calls { calls.new ≡ drop 1 calls.old }
{
    match calls.next() {
        None => Ok(()),
        Some(call) => put_call(out, teller, call),
    }
}

/// Appends calls, in order.
pub(crate) fn put_calls(
    out: &mut Blob,
    teller: &Teller<'_>,
    calls: &[Logged],
) -> Result<(), NoMemory>
    ensures { OnOk result (out.new.bytes ≡ out.old.bytes ++ flat_map (call_line teller.now) calls.now) }
{
    for call in calls {
        put_call(out, teller, call)?;
    }
    Ok(())
}

/// Appends the line of a call.
#[tactic(auto, unfolding(crate::specs::Dispatches::call_line))]
fn put_call(out: &mut Blob, teller: &Teller<'_>, call: &Logged) -> Result<(), NoMemory>
    ensures { OnOk result (out.new.bytes ≡ out.old.bytes ++ call_line teller.now call.now) }
{
    out.push_all(b"  ")?;
    put_line(out, teller.nodes, teller.own.name.as_slice(), call)
}

/// Appends the line of a call as `sim` reports it.
fn put_line(out: &mut Blob, nodes: &[Node], name: &[u8], call: &Logged) -> Result<(), NoMemory>
    ensures { OnOk result (out.new.bytes ≡ out.old.bytes ++ line_of (map name_of nodes.now) name.now (heard_of call.now)) }
{
    match call {
        Logged::Message {
            peer,
            key,
            number: _,
            life: _,
            message,
        } => put_dispatch(out, name, name_of(nodes, *peer), key, message),
        Logged::Reset { peer } => put_reset(out, name, name_of(nodes, *peer)),
    }
}
