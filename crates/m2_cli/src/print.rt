//! Writing the report, and the status's line.

ghost use Rattle.std.specs.Prelude.{◌≡◌, ◌≤◌, ◌⊎◌, List, []};
ghost use Rattle.m2_edge.specs.Faults.{HasCause};
ghost use Rattle.m2_cli.specs.declared.status.Status.{Status};
ghost use Rattle.m2_cli.specs.declared.status.Status.TheVariants as statuses;
ghost use Rattle.m2_cli.specs.Print.{DeliversText, PrintsReport, SaysStatus, unsaid};
ghost use Rattle.m2_cli.specs.Status.{line_of, fixed_line_of};
ghost use Rattle.m2_scenario.specs.Text.{Word};

use crate::printout::Printout;
use crate::status::{Status, fixed_line, line};
use m2_bytes::NoMemory;
use m2_edge::{Failed, Sink};
use m2_program::write_text;
use std::alloc::Global;

/// Writes the report and then says the status. After a fault nothing more is written there.
pub(crate) fn print<O: Sink, E: Sink>(printout: &Printout, out: &mut O, err: &mut E) -> Status
    ensures out_never_falls { (O.seen out.old).faults ≤ (O.seen out.new).faults }
    ensures err_never_falls { (E.seen err.old).faults ≤ (E.seen err.new).faults }
    ensures prints { (names : List Word) → printout.now.line.bytes ≡ line_of names printout.now.status →
        (work : Status) × PrintsReport printout.now work (O.seen out.old) (O.seen out.new) × SaysStatus names work result (E.seen err.old) (E.seen err.new) }
{
    match deliver(out, printout.report.as_slice()) {
        Ok(()) => say(err, printout.status, printout.line.as_slice()),
        Err(_) => say_fixed(err, Status::WriteFault),
    }
}

/// Says a status that carries no number, and takes no memory for it.
pub(crate) fn say_fixed<E: Sink>(err: &mut E, status: Status) -> Status
    requires { fixed_line_of status ≡ line_of [] status }
    ensures never_falls { (E.seen err.old).faults ≤ (E.seen err.new).faults }
    ensures says { SaysStatus [] status result (E.seen err.old) (E.seen err.new) }
{
    say(err, status, fixed_line(&status))
}

/// Says a status by the line that is made for it; where there is no memory for that, NoMemory.
pub(crate) fn say_made<E: Sink>(alloc: Global, err: &mut E, status: Status) -> Status
    ensures never_falls { (E.seen err.old).faults ≤ (E.seen err.new).faults }
    ensures says { SaysStatus [] status result (E.seen err.old) (E.seen err.new)
        ⊎ SaysStatus [] statuses.NoMemory result (E.seen err.old) (E.seen err.new) }
{
    match line(alloc, &[], &status) {
        Ok(text) => say(err, status, text.as_slice()),
        Err(NoMemory) => say_fixed(err, Status::NoMemory),
    }
}

/// Says a status by its line. Where that fails the status is WriteFault, or NoMemory as before.
fn say<E: Sink>(err: &mut E, status: Status, line: &[u8]) -> Status
    ensures never_falls { (E.seen err.old).faults ≤ (E.seen err.new).faults }
    ensures says { (names : List Word) → line.now ≡ line_of names status → SaysStatus names status result (E.seen err.old) (E.seen err.new) }
{
    match deliver(err, line) {
        Ok(()) => status,
        Err(_) => unsaid(status),
    }
}

fn unsaid(status: Status) -> Status
    ensures { result ≡ unsaid status }
{
    match status {
        Status::NoMemory => Status::NoMemory,
        _ => Status::WriteFault,
    }
}

/// Writes a text and passes it on. Where it is empty the sink isn't called.
fn deliver<K: Sink>(sink: &mut K, text: &[u8]) -> Result<(), Failed>
    ensures causes { HasCause result (K.seen sink.old).faults (K.seen sink.new).faults }
    ensures delivers { DeliversText result text.now (K.seen sink.old) (K.seen sink.new) }
{
    if text.is_empty() {
        return Ok(());
    }
    write_text(sink, text)
}
