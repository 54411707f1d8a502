//! What ends did, as lines.

ghost use Rattle.std.specs.Prelude.{◌≡◌, ◌++◌, ◌-◌, OnOk, drop, length, take};
ghost use Rattle.m2_fabric.specs.Log.{log_of};
ghost use Rattle.m2_run_trace.specs.Ends.{accepted_words, behind_read, closed_words, opened_words, read_words, run_line, run_lines, run_words, trail_line, wrote_words};
ghost use Rattle.m2_trail.specs.Trails.{written_by};

use crate::lists::behind;
use crate::telling::Teller;
use crate::words::{begin_trail, put_moved, put_with_socket};
use m2_bytes::{Blob, NoMemory};
use m2_fabric::{EndLog, Run, SocketId};
use m2_scenario::{Node, prefix};
use m2_trace::put_bytes;

/// Appends that bytes were read, and how many.
#[tactic(auto, unfolding(crate::specs::Ends::read_words))]
pub(crate) fn put_read(
    out: &mut Blob,
    nodes: &[Node],
    socket: &SocketId,
    count: u32,
) -> Result<(), NoMemory>
    ensures { OnOk result (out.new.bytes ≡ out.old.bytes ++ read_words nodes.now socket.now count) }
{
    put_moved(out, b" read ", nodes, socket, count)
}

/// Appends that bytes were written, how many and which: so many of those that were put, from a place on.
#[tactic(auto, unfolding(crate::specs::Ends::wrote_words))]
pub(crate) fn put_wrote(
    out: &mut Blob,
    nodes: &[Node],
    socket: &SocketId,
    count: u32,
    from: usize,
    put: &[u8],
) -> Result<(), NoMemory>
    ensures { OnOk result (out.new.bytes ≡ out.old.bytes ++ wrote_words nodes.now socket.now count from put.now) }
{
    put_moved(out, b" wrote ", nodes, socket, count)?;
    put_bytes(out, piece(put, from, count))
}

/// So many of the bytes, from a place on.
fn piece(bytes: &[u8], from: usize, count: u32) -> &[u8]
    ensures { result.now ≡ take count (drop from bytes.now) }
{
    prefix(behind(bytes, from), count as usize)
}

/// Appends that a socket was opened, and what made that due.
#[tactic(auto, unfolding(crate::specs::Ends::opened_words))]
pub(crate) fn put_opened(
    out: &mut Blob,
    nodes: &[Node],
    socket: &SocketId,
    cause: &[u8],
) -> Result<(), NoMemory>
    ensures { OnOk result (out.new.bytes ≡ out.old.bytes ++ opened_words nodes.now socket.now cause.now) }
{
    put_with_socket(out, b" opened ", nodes, socket)?;
    out.push_all(cause)
}

/// Appends that an end was closed, and why.
#[tactic(auto, unfolding(crate::specs::Ends::closed_words))]
pub(crate) fn put_closed(
    out: &mut Blob,
    nodes: &[Node],
    socket: &SocketId,
    cause: &[u8],
) -> Result<(), NoMemory>
    ensures { OnOk result (out.new.bytes ≡ out.old.bytes ++ closed_words nodes.now socket.now cause.now) }
{
    put_with_socket(out, b" closed ", nodes, socket)?;
    out.push_all(cause)
}

/// Appends the line of an accepted socket.
#[tactic(auto, unfolding(crate::specs::Ends::accepted_words, crate::specs::Ends::trail_line))]
pub(crate) fn put_accepted(
    out: &mut Blob,
    teller: &Teller<'_>,
    socket: &SocketId,
) -> Result<(), NoMemory>
    ensures { OnOk result (out.new.bytes ≡ out.old.bytes ++ trail_line teller.now (accepted_words teller.now.nodes socket.now)) }
{
    begin_trail(out, teller.own.name.as_slice())?;
    put_with_socket(out, b" accepted ", teller.nodes, socket)?;
    out.push_all(b"\n")
}

/// Appends the line of a half that was closed.
#[tactic(auto, unfolding(crate::specs::Ends::trail_line))]
pub(crate) fn put_half_closed(
    out: &mut Blob,
    teller: &Teller<'_>,
    socket: &SocketId,
    cause: &[u8],
) -> Result<(), NoMemory>
    ensures { OnOk result (out.new.bytes ≡ out.old.bytes ++ trail_line teller.now (closed_words teller.now.nodes socket.now cause.now)) }
{
    begin_trail(out, teller.own.name.as_slice())?;
    put_closed(out, teller.nodes, socket, cause)?;
    out.push_all(b"\n")
}

/// Appends so many reads and writes of a half, from a place on.
pub(crate) fn put_runs(
    out: &mut Blob,
    teller: &Teller<'_>,
    socket: &SocketId,
    log: &EndLog,
    from: usize,
    to: usize,
) -> Result<(), NoMemory>
    ensures { OnOk result (out.new.bytes ≡ out.old.bytes ++ run_lines teller.now socket.now (log_of log.now) from (to - from)) }
{
    'runs: for at in from..to {
        put_run(
            out,
            teller,
            socket,
            log.put.as_slice(),
            behind(log.runs.as_slice(), at),
        )?;
    }
    Ok(())
}

/// Appends the first of these reads and writes, with which all that the end put is put.
fn put_run(
    out: &mut Blob,
    teller: &Teller<'_>,
    socket: &SocketId,
    put: &[u8],
    runs: &[Run],
) -> Result<(), NoMemory>
    ensures { OnOk result (out.new.bytes ≡ out.old.bytes ++ run_line teller.now socket.now put.now runs.now) }
{
    match runs {
        [] => Ok(()),
        [run, ..] => put_run_line(out, teller, socket, put, start_of(runs, put.len()), *run),
    }
}

/// Appends the line of a read or write, of which the bytes stand at a place.
#[tactic(auto, unfolding(crate::specs::Ends::trail_line))]
fn put_run_line(
    out: &mut Blob,
    teller: &Teller<'_>,
    socket: &SocketId,
    put: &[u8],
    from: usize,
    run: Run,
) -> Result<(), NoMemory>
    ensures { OnOk result (out.new.bytes ≡ out.old.bytes ++ trail_line teller.now (run_words teller.now.nodes socket.now put.now from run)) }
{
    begin_trail(out, teller.own.name.as_slice())?;
    put_run_words(out, teller.nodes, socket, put, from, run)?;
    out.push_all(b"\n")
}

#[tactic(auto, unfolding(crate::specs::Ends::run_words))]
fn put_run_words(
    out: &mut Blob,
    nodes: &[Node],
    socket: &SocketId,
    put: &[u8],
    from: usize,
    run: Run,
) -> Result<(), NoMemory>
    ensures { OnOk result (out.new.bytes ≡ out.old.bytes ++ run_words nodes.now socket.now put.now from run) }
{
    match run {
        Run::Read(count) => put_read(out, nodes, socket, count),
        Run::Wrote(count) => put_wrote(out, nodes, socket, count, from, put),
    }
}

/// Where what these reads and writes put begins, if all that an end put ends with it.
pub(crate) fn start_of(runs: &[Run], put: usize) -> usize
    ensures { result ≡ put - written_by runs.now }
{
    let mut start = put;
    for run in runs {
        if let Run::Wrote(count) = run {
            start = start.saturating_sub(*count as usize);
        }
    }
    start
}

/// Behind the last read, of those from this place on; this place where there is none.
pub(crate) fn behind_last_read(runs: &[Run], from: usize) -> usize
    ensures { result ≡ behind_read (drop from runs.now) from from }
{
    let mut last = from;
    'runs: for place in from..runs.len() {
        if let Run::Read(_) = runs[place] {
            last = place + 1;
        }
    }
    last
}
