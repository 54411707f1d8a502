//! The program over files and two writers of the runtime.

ghost use Rattle.std.specs.Prelude.{map, string_bytes};
ghost use Rattle.m2_cli.specs.Program.{PrintsWhereDone};
ghost use Rattle.m2_cli.specs.Form.{form_in};

use crate::status::Status;
use crate::top::msgr2;
use m2_edge::{Clock, Gate, Sink, Source, StdSink, StdSource, Words};
use m2_fabric::{Fabric, Port};
use std::alloc::Global;
use std::io::Write;
use std::rt::Files;
use std::sync::Wait;
use std::thread::Threads;

/// How the program ended, and what it read and wrote through.
#[derive(Drop)]
pub struct Ended<'a, R: Files, O, E> {
    pub status: Status,
    pub source: StdSource<'a, R>,
    pub out: StdSink<O>,
    pub err: StdSink<E>,
}

/// All that the program does: [`msgr2`] over the files of the runtime, printing on `out` and saying on `err`; `run FILE` over
/// the ports of this fabric.
pub fn run_program<'a, R, O, E, F, C, W, G>(
    alloc: Global,
    rt: &'a R,
    args: &[String],
    out: O,
    err: E,
    fabric: &mut F,
    clock: &C,
    words: &mut W,
    gate: &G,
) -> Ended<'a, R, O, E>
where
    R: Files + Threads + Wait + Send + Sync + Copy,
    O: Write,
    E: Write,
    F: Fabric,
    F::Port: Send,
    <F::Port as Port>::End: Send,
    C: Clock,
    W: Words,
    G: Gate,
    // Where `sim FILE` answers Done, `out` took exactly the report of a run of the scenario that the file gave, which
    // leaves nothing undelivered, and flushed it; the file was read to its end, or to the byte past the limit of a
    // scenario. Where `load N SEED` answers Done, `out` took exactly its three lines, and flushed them. Nothing is said
    // here of other statuses, nor of `run` and `frames`: that is in the contract of `msgr2`.
    ensures done { PrintsWhereDone (form_in (map string_bytes args.now)) result.status
        (⟦<StdSource<'a, R> as Source>⟧.seen result.source) (⟦<StdSink<O> as Sink>⟧.seen result.out) }
{
    let mut source = StdSource::new(rt);
    let mut out = StdSink::new(out);
    let mut err = StdSink::new(err);
    let status = msgr2(
        rt,
        alloc,
        args,
        &mut source,
        &mut out,
        &mut err,
        fabric,
        clock,
        words,
        gate,
    );
    Ended {
        status,
        source,
        out,
        err,
    }
}
