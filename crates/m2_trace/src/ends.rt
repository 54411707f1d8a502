//! What ends did, as lines.

ghost use Rattle.std.specs.Prelude.{◌≡◌, ◌++◌, codes, OnOk};
ghost use Rattle.std.specs.List.{flat_map};
ghost use Rattle.m2_fabric.specs.Log.{log_of};
ghost use Rattle.m2_trace.specs.Ends.{flag_words, run_words, run_line, bytes_line, bytes_lines, socket_line, log_lines, end_lines};
ghost use Rattle.m2_trace.specs.Words.{bytes_word, socket_word};

use crate::entries::{put_moved, put_with_socket};
use crate::words::{put_bytes, put_flag, put_head};
use m2_bytes::{Blob, NoMemory};
use m2_fabric::{End, EndLog, Run, SocketId};

#[tactic(auto, unfolding(crate::specs::Ends::flag_words))]
fn put_flags(out: &mut Blob, log: &EndLog) -> Result<(), NoMemory>
    ensures { OnOk result (out.new.bytes ≡ out.old.bytes ++ flag_words (log_of log.now)) }
{
    put_flag(out, log.closed)?;
    put_flag(out, log.dry)?;
    put_flag(out, log.blocked)?;
    put_flag(out, log.ended)
}

#[tactic(auto, unfolding(crate::specs::Ends::run_words))]
fn put_run_words(out: &mut Blob, socket: &SocketId, run: &Run) -> Result<(), NoMemory>
    ensures { OnOk result (out.new.bytes ≡ out.old.bytes ++ run_words socket.now run.now) }
{
    match run {
        Run::Read(count) => put_moved(out, b" read", socket, *count as u64),
        Run::Wrote(count) => put_moved(out, b" wrote", socket, *count as u64),
    }
}

#[tactic(auto, unfolding(crate::specs::Ends::run_line, crate::specs::Words::line))]
fn put_run(
    out: &mut Blob,
    side: &[u8],
    what: &[u8],
    socket: &SocketId,
    run: &Run,
) -> Result<(), NoMemory>
    ensures { OnOk result (out.new.bytes ≡ out.old.bytes ++ run_line side.now what.now socket.now run.now) }
{
    put_head(out, side, what)?;
    put_run_words(out, socket, run)?;
    out.push_all(b"\n")
}

fn put_runs(
    out: &mut Blob,
    side: &[u8],
    what: &[u8],
    socket: &SocketId,
    runs: &[Run],
) -> Result<(), NoMemory>
    ensures { OnOk result (out.new.bytes ≡ out.old.bytes ++ flat_map (run_line side.now what.now socket.now) runs.now) }
{
    for run in runs {
        put_run(out, side, what, socket, run)?;
    }
    Ok(())
}

fn put_moved_words(
    out: &mut Blob,
    word: &[u8],
    socket: &SocketId,
    bytes: &[u8],
) -> Result<(), NoMemory>
    ensures { OnOk result (out.new.bytes ≡ out.old.bytes ++ (word.now ++ socket_word socket.now ++ bytes_word bytes.now)) }
{
    put_with_socket(out, word, socket)?;
    put_bytes(out, bytes)
}

#[tactic(auto, unfolding(crate::specs::Ends::bytes_line, crate::specs::Words::line))]
fn put_bytes_line(
    out: &mut Blob,
    side: &[u8],
    what: &[u8],
    word: &[u8],
    socket: &SocketId,
    bytes: &[u8],
) -> Result<(), NoMemory>
    ensures { OnOk result (out.new.bytes ≡ out.old.bytes ++ bytes_line side.now what.now word.now socket.now bytes.now) }
{
    put_head(out, side, what)?;
    put_moved_words(out, word, socket, bytes)?;
    out.push_all(b"\n")
}

#[tactic(auto, unfolding(crate::specs::Ends::bytes_lines))]
fn put_bytes_lines(
    out: &mut Blob,
    side: &[u8],
    what: &[u8],
    socket: &SocketId,
    log: &EndLog,
) -> Result<(), NoMemory>
    ensures { OnOk result (out.new.bytes ≡ out.old.bytes ++ bytes_lines side.now what.now socket.now (log_of log.now)) }
{
    put_bytes_line(out, side, what, b" got", socket, log.got.as_slice())?;
    put_bytes_line(out, side, what, b" put", socket, log.put.as_slice())
}

#[tactic(auto, unfolding(crate::specs::Ends::socket_line, crate::specs::Words::line))]
fn put_socket_line(
    out: &mut Blob,
    side: &[u8],
    what: &[u8],
    socket: &SocketId,
    log: &EndLog,
) -> Result<(), NoMemory>
    ensures { OnOk result (out.new.bytes ≡ out.old.bytes ++ socket_line side.now what.now socket.now (log_of log.now)) }
{
    put_head(out, side, what)?;
    put_with_socket(out, b" socket", socket)?;
    put_flags(out, log)?;
    out.push_all(b"\n")
}

#[tactic(auto, unfolding(crate::specs::Ends::log_lines))]
fn put_log(
    out: &mut Blob,
    side: &[u8],
    what: &[u8],
    socket: &SocketId,
    log: &EndLog,
) -> Result<(), NoMemory>
    ensures { OnOk result (out.new.bytes ≡ out.old.bytes ++ log_lines side.now what.now socket.now (log_of log.now)) }
{
    put_socket_line(out, side, what, socket, log)?;
    put_runs(out, side, what, socket, log.runs.as_slice())?;
    put_bytes_lines(out, side, what, socket, log)
}

/// Appends the lines of an end: its socket with whether it is closed, dry, blocked and ended; its reads and
/// writes; and all bytes that it got and put.
#[tactic(auto, unfolding(crate::specs::Ends::end_lines))]
pub fn put_end<E: End>(out: &mut Blob, side: &[u8], what: &[u8], end: &E) -> Result<(), NoMemory>
    ensures { OnOk result (out.new.bytes ≡ out.old.bytes ++ end_lines side.now what.now (E.seen end.now)) }
{
    let socket = end.id();
    put_log(out, side, what, &socket, end.log())
}
