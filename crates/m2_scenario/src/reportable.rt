//! That the report of every run is one that is read in one way. These functions do nothing: they look
//! at each value once, since what its type promises is known where it is looked at.

ghost use Rattle.std.specs.Prelude.{◌≡◌, ◌<◌, ◌^◌, All, map};
ghost use Rattle.m2_message.specs.Message.{content_of};
ghost use Rattle.m2_dispatch.specs.Heard.{heard_of};
ghost use Rattle.m2_scenario.specs.Valid.{IsValid};
ghost use Rattle.m2_scenario.specs.Report.{AreLogsOf, heard_in};
ghost use Rattle.m2_scenario.specs.Printed.{IsPart, AreNamed, AreReportable, CallFits, LogFits, FieldsFit, IsNamed};
ghost use Rattle.m2_scenario.specs.Printed.{PrintAlike, message_of, printed_of};

use crate::report_laws::reports_are_read_in_one_way;
use crate::reports::LogsList;
use crate::{Node, Scenario};
use m2_dispatch::{Logged, LoggedList};
use m2_message::Message;
use m2_policy::Key;

/// A report tells what was heard. Where the logs of two runs of a valid scenario print one text, each
/// node's dispatchers were called alike in both, call by call, in all that a line prints.
pub fn report_tells_what_was_heard(s: &Scenario, one: &LogsList, other: &LogsList)
    requires valid { IsValid s.now }
    requires one { AreLogsOf s.now.nodes.items one.now.items }
    requires other { AreLogsOf s.now.nodes.items other.now.items }
    requires alike { PrintAlike s.now.nodes.items (map heard_in one.now.items) (map heard_in other.now.items) }
    ensures { map (map printed_of) (map heard_in one.now.items) ≡ map (map printed_of) (map heard_in other.now.items) }
{
    nodes_are_named(s);
    logs_are_reportable(s, one);
    logs_are_reportable(s, other);
    reports_are_read_in_one_way();
}

/// The nodes of a valid scenario have names that differ.
pub fn nodes_are_named(s: &Scenario)
    requires { IsValid s.now }
    ensures { AreNamed s.now.nodes.items }
{
    each_is_named(s.nodes.as_slice());
}

/// The logs of a run fit the report: their peers are nodes, their numbers have sixteen bits, and their
/// parts are bytes.
pub fn logs_are_reportable(s: &Scenario, logs: &LogsList)
    requires { AreLogsOf s.now.nodes.items logs.now.items }
    ensures { AreReportable s.now.nodes.items (map heard_in logs.now.items) }
{
    each_log_fits(logs.as_slice());
}

// Each node has a name.
fn each_is_named(nodes: &[Node])
    ensures { All IsNamed nodes.now }
{
    for node in nodes {
        node.name.as_slice();
    }
}

// The calls of each log fit their lines.
fn each_log_fits(logs: &[LoggedList])
    ensures { All LogFits logs.now }
{
    for log in logs {
        each_call_fits(log.as_slice());
    }
}

// Each call fits its line.
fn each_call_fits(log: &[Logged])
    ensures { All CallFits log.now }
{
    for call in log {
        call_fits(call);
    }
}

// A call fits its line.
fn call_fits(call: &Logged)
    ensures { CallFits call.now }
{
    match call {
        Logged::Message { key, message, .. } => message_fits(key, message),
        Logged::Reset { .. } => {}
    }
}

// The key and the message fit a line.
fn message_fits(key: &Key, message: &Message)
    ensures { FieldsFit (message_of key.now (content_of message.now)) }
{
    number_fits(key.priority);
    number_fits(message.header.kind);
    are_bytes(message.front.as_slice());
    are_bytes(message.middle.as_slice());
    are_bytes(message.tail.as_slice());
}

// The number has sixteen bits.
fn number_fits(n: u16)
    ensures { n < 2 ^ 16 }
{}

// Bytes are bytes.
fn are_bytes(bytes: &[u8])
    ensures { IsPart bytes.now }
{}
