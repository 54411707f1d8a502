//! The top call.

ghost use Rattle.std.specs.Prelude.{◌≡◌, Some, map, string_bytes, []};
ghost use Rattle.m2_cli.specs.Edge.{HasCauses, edge};
ghost use Rattle.m2_cli.specs.Ends.{Ends, KeepsFabric, KeepsItsOrder};
ghost use Rattle.m2_cli.specs.Form.{form_in, form_of, IsWithin, MatchForm};
ghost use Rattle.m2_cli.specs.Order.{KeepsOrder};
ghost use Rattle.m2_cli.specs.ThreadsOrder.{KeepsThreadsOrder};
ghost use Rattle.m2_cli.specs.Threads.{RunsThreads, names_in};
ghost use Rattle.m2_cli.specs.Top.{RunsFile};
ghost use Rattle.m2_cli.specs.Work.{Works};

use crate::frames::frames;
use crate::load::load;
use crate::playing::prepare_threads;
use crate::print::{print, say_fixed};
use crate::printout::prepare_file;
use crate::status::Status;
use crate::{Command, command_of};
use m2_bytes::NoMemory;
use m2_edge::{Clock, Gate, ReadFault, Sink, Source, Words};
use m2_fabric::{Fabric, Port};
use m2_promise::ends_are_promised;
use m2_run::runs_are_joined;
use m2_scenario::calls_and_left_are_posts;
use std::alloc::Global;
use std::sync::Wait;
use std::thread::Threads;

/// Runs the command that the words name, prints its report on `out`, says on `err` how it ended, and
/// answers that. The forms of the words are `sim FILE`, `run FILE`, `frames FILE` and `load N SEED`.
///
/// The words are looked at first. With `sim` the file is then read whole, then its scenario is run,
/// and only then is anything written. With `run` the nodes of the scenario run on threads, over the ports of the
/// fabric, by the moments of the clock, each with a salt of the words, and each thread passes the gate before a turn;
/// it isn't proved to return. With `load` nothing is read: the scenario of the two numbers is
/// generated and run, and only then is anything written. With `frames` the file is read in pieces, and the
/// frames of each are listed before the next is read.
pub fn msgr2<R, S, O, E, F, C, W, G>(
    rt: &R,
    alloc: Global,
    args: &[String],
    src: &mut S,
    out: &mut O,
    err: &mut E,
    fabric: &mut F,
    clock: &C,
    words: &mut W,
    gate: &G,
) -> Status
where
    R: Threads + Wait + Send + Sync + Copy,
    S: Source,
    O: Sink,
    E: Sink,
    F: Fabric,
    F::Port: Send,
    <F::Port as Port>::End: Send,
    C: Clock,
    W: Words,
    G: Gate,
    // A read fault or a write fault is answered only where one happened in this call: where the count of the
    // source, or of one of the sinks, has risen. No count falls.
    ensures causes { HasCauses result (edge (S.seen src.old) (O.seen out.old) (E.seen err.old))
        (edge (S.seen src.new) (O.seen out.new) (E.seen err.new)) }
    // No file's contents change.
    ensures inputs { (S.seen src.new).inputs ≡ (S.seen src.old).inputs }
    // Words of no form touch neither the source nor standard output.
    ensures refuses { MatchForm (form_in (map string_bytes args.now)) ((src.new ≡ src.old) × (out.new ≡ out.old))
        (λ _. Unit {0}) (λ _. Unit {0}) (λ _. Unit {0}) (λ _ _. Unit {0}) }
    // Only `run` uses the fabric.
    ensures fabric { KeepsFabric (form_in (map string_bytes args.now)) (F.seen fabric.old) (F.seen fabric.new) }
    // By the form of the words: how much of the file was read, what of its report was printed, which line was said
    // on standard error, and which status is answered. `RunsFile` says it for each status of `sim`, `RunsThreads` for each of
    // `run`, `ListsFile` for each of `frames`, and `RunsLoad` for each of `load`.
    ensures ends { Ends (C.may_give clock.now) (F.seen fabric.old) (F.seen fabric.new) (form_in (map string_bytes args.now)) result
        (edge (S.seen src.old) (O.seen out.old) (E.seen err.old)) (edge (S.seen src.new) (O.seen out.new) (E.seen err.new)) }
    // The headline. For every scenario, cut, crossing of connects and schedule of turns or of threads, a lossless session
    // that neither end marks down is never reset; in it, of each priority and dispatch path, the messages that are printed
    // as dispatched at a node from its peer are a prefix of those that the file has that peer post, in order, each
    // once; what a sender counts acknowledged was accepted; and Done means that every post of such a session was
    // dispatched. With Left and Stalled so many are missing. With WriteFault a prefix of such lines was printed, or nothing. Of
    // `load` the same of the generated posts and of what was dispatched, and the three lines tell how many these are.
    ensures order { KeepsItsOrder (C.may_give clock.now) (F.seen fabric.old) (F.seen fabric.new) (form_in (map string_bytes args.now)) result
        (edge (S.seen src.old) (O.seen out.old) (E.seen err.old)) (edge (S.seen src.new) (O.seen out.new) (E.seen err.new)) }
{
    match command_of(alloc, args) {
        Ok(Some(command)) => run_command(
            rt, alloc, command, src, out, err, fabric, clock, words, gate,
        ),
        Ok(None) => say_fixed(err, Status::Usage),
        Err(NoMemory) => say_fixed(err, Status::NoMemory),
    }
}

/// Runs a command.
fn run_command<R, S, O, E, F, C, W, G>(
    rt: &R,
    alloc: Global,
    command: Command,
    src: &mut S,
    out: &mut O,
    err: &mut E,
    fabric: &mut F,
    clock: &C,
    words: &mut W,
    gate: &G,
) -> Status
where
    R: Threads + Wait + Send + Sync + Copy,
    S: Source,
    O: Sink,
    E: Sink,
    F: Fabric,
    F::Port: Send,
    <F::Port as Port>::End: Send,
    C: Clock,
    W: Words,
    G: Gate,
    requires { IsWithin command }
    ensures causes { HasCauses result (edge (S.seen src.old) (O.seen out.old) (E.seen err.old))
        (edge (S.seen src.new) (O.seen out.new) (E.seen err.new)) }
    ensures inputs { (S.seen src.new).inputs ≡ (S.seen src.old).inputs }
    ensures fabric { KeepsFabric (Some (form_of command)) (F.seen fabric.old) (F.seen fabric.new) }
    ensures ends { Ends (C.may_give clock.now) (F.seen fabric.old) (F.seen fabric.new) (Some (form_of command)) result
        (edge (S.seen src.old) (O.seen out.old) (E.seen err.old)) (edge (S.seen src.new) (O.seen out.new) (E.seen err.new)) }
    ensures order { KeepsItsOrder (C.may_give clock.now) (F.seen fabric.old) (F.seen fabric.new) (Some (form_of command)) result
        (edge (S.seen src.old) (O.seen out.old) (E.seen err.old)) (edge (S.seen src.new) (O.seen out.new) (E.seen err.new)) }
{
    match command {
        Command::Sim(file) => sim(alloc, file.as_str(), src, out, err),
        Command::Run(file) => threads(
            rt,
            alloc,
            file.as_str(),
            src,
            out,
            err,
            fabric,
            clock,
            words,
            gate,
        ),
        Command::Frames(file) => frames(alloc, file.as_str(), src, out, err),
        Command::Load { posts, seed } => load(alloc, posts, seed, out, err),
    }
}

/// Reads the scenario of a file, runs it, and prints its report.
fn sim<S: Source, O: Sink, E: Sink>(
    alloc: Global,
    file: &str,
    src: &mut S,
    out: &mut O,
    err: &mut E,
) -> Status
    ensures works { Works [] (RunsFile file.now) result (edge (S.seen src.old) (O.seen out.old) (E.seen err.old))
        (edge (S.seen src.new) (O.seen out.new) (E.seen err.new)) }
    ensures order { KeepsOrder result (edge (S.seen src.old) (O.seen out.old) (E.seen err.old))
        (edge (S.seen src.new) (O.seen out.new) (E.seen err.new)) }
{
    calls_and_left_are_posts();
    match prepare_file(alloc, src, file) {
        Ok(printout) => print(&printout, out, err),
        Err(ReadFault::Failed) => say_fixed(err, Status::ReadFault),
        Err(ReadFault::NoMemory) => say_fixed(err, Status::NoMemory),
    }
}

/// Reads the scenario of a file, runs its nodes on threads, and prints the sorted report.
fn threads<R, S, O, E, F, C, W, G>(
    rt: &R,
    alloc: Global,
    file: &str,
    src: &mut S,
    out: &mut O,
    err: &mut E,
    fabric: &mut F,
    clock: &C,
    words: &mut W,
    gate: &G,
) -> Status
where
    R: Threads + Wait + Send + Sync + Copy,
    S: Source,
    O: Sink,
    E: Sink,
    F: Fabric,
    F::Port: Send,
    <F::Port as Port>::End: Send,
    C: Clock,
    W: Words,
    G: Gate,
    ensures works { Works (names_in (S.seen src.new).given) (RunsThreads (C.may_give clock.now) (F.seen fabric.old) (F.seen fabric.new) file.now) result
        (edge (S.seen src.old) (O.seen out.old) (E.seen err.old)) (edge (S.seen src.new) (O.seen out.new) (E.seen err.new)) }
    ensures order { KeepsThreadsOrder (C.may_give clock.now) (F.seen fabric.old) (F.seen fabric.new) result
        (edge (S.seen src.old) (O.seen out.old) (E.seen err.old)) (edge (S.seen src.new) (O.seen out.new) (E.seen err.new)) }
{
    calls_and_left_are_posts();
    ends_are_promised();
    runs_are_joined::<C>();
    match prepare_threads(rt, alloc, src, file, fabric, clock, words, gate) {
        Ok(printout) => print(&printout, out, err),
        Err(ReadFault::Failed) => say_fixed(err, Status::ReadFault),
        Err(ReadFault::NoMemory) => say_fixed(err, Status::NoMemory),
    }
}
