//! The whole work of the program.

ghost use Rattle.std.specs.Prelude.{◌≡◌, ◌⊎◌, map, string_bytes, codes, option_map};
ghost use Rattle.std.specs.Str.{bytes_eq};
ghost use Rattle.m2_frame_facts.specs.declared.status.FactsStatus.TheVariants as statuses;
ghost use Rattle.m2_edge.specs.Faults.{HasRisen};
ghost use Rattle.m2_frame_facts.specs.Top.{IsCaused, IsTold, TellsAs, asked_in, new_sink, new_source};

use crate::Style;
use crate::status::FactsStatus;
use crate::telling::tell_frames;
use m2_bytes::{Blob, NoMemory};
use m2_edge::{Failed, Sink, Source, StdSink, StdSource, write_whole};
use std::alloc::Global;
use std::io::Write;
use std::rt::Files;

/// Tells the frames of the file that the words name on `out`, says on `err` how that ended, and answers it.
pub fn frame_facts<S: Source, O: Sink, E: Sink>(
    alloc: Global,
    args: &[String],
    src: &mut S,
    out: &mut O,
    err: &mut E,
) -> FactsStatus
    // The file that the words name is told; other words leave the source alone.
    ensures tells { TellsAs (asked_in (map string_bytes args.now)) result (S.seen src.old) (S.seen src.new) (O.seen out.old) (O.seen out.new) }
    // A fault is answered only where one happened in this call: where the count of the source, or of a sink, has risen.
    ensures causes { IsCaused result (HasRisen (S.seen src.old).faults (S.seen src.new).faults)
        (HasRisen (O.seen out.old).faults (O.seen out.new).faults ⊎ HasRisen (E.seen err.old).faults (E.seen err.new).faults) }
{
    let status = tell(alloc, args, src, out);
    say(alloc, status, err)
}

/// Tells the frames of the file that the words name, and passes on what was written.
fn tell<S: Source, O: Sink>(alloc: Global, args: &[String], src: &mut S, out: &mut O) -> FactsStatus
    ensures tells { TellsAs (asked_in (map string_bytes args.now)) result (S.seen src.old) (S.seen src.new) (O.seen out.old) (O.seen out.new) }
    ensures causes { IsCaused result (HasRisen (S.seen src.old).faults (S.seen src.new).faults) (HasRisen (O.seen out.old).faults (O.seen out.new).faults) }
{
    match read_words(args) {
        Some(asked) => tell_file(alloc, asked.style, asked.file, src, out),
        None => FactsStatus::Usage,
    }
}

/// What the words ask for.
#[derive(Clone, Copy, Debug)]
struct Asked<'a> {
    style: Style,
    file: &'a str,
}

/// What the words ask for; none where they are none of this program.
fn read_words(args: &[String]) -> Option<Asked<'_>>
    ensures { option_map (λ a. record { form = a.style; file = a.file.now }) result ≡ asked_in (map string_bytes args.now) }
{
    match args {
        [file] => Some(Asked {
            style: Style::Line,
            file: file.as_str(),
        }),
        [option, file] => {
            if is_json(option.as_str()) {
                Some(Asked {
                    style: Style::Json,
                    file: file.as_str(),
                })
            } else {
                None
            }
        }
        _ => None,
    }
}

fn is_json(word: &str) -> bool
    ensures { result ≡ bytes_eq word.now (codes "--json") }
{
    word == "--json"
}

/// Tells the frames of a file, and passes on what was written.
fn tell_file<S: Source, O: Sink>(
    alloc: Global,
    style: Style,
    file: &str,
    src: &mut S,
    out: &mut O,
) -> FactsStatus
    ensures tells { IsTold (record { form = style; file = file.now }) result (S.seen src.old) (S.seen src.new) (O.seen out.old) (O.seen out.new) }
    ensures causes { IsCaused result (HasRisen (S.seen src.old).faults (S.seen src.new).faults) (HasRisen (O.seen out.old).faults (O.seen out.new).faults) }
{
    let ended = tell_frames(alloc, style, file, src, out);
    match out.flush() {
        Ok(()) => FactsStatus::of(ended),
        Err(Failed) => FactsStatus::WriteFault,
    }
}

/// Says how it ended. Where that can't be said the answer is WriteFault or NoMemory.
fn say<E: Sink>(alloc: Global, status: FactsStatus, err: &mut E) -> FactsStatus
    ensures { (result ≡ status) ⊎ ((result ≡ statuses.WriteFault) × HasRisen (E.seen err.old).faults (E.seen err.new).faults) ⊎ (result ≡ statuses.NoMemory) }
{
    let mut line = Blob::empty(alloc);
    match status.put_line(&mut line) {
        Ok(()) => {}
        Err(NoMemory) => return FactsStatus::NoMemory,
    }
    match write_whole(err, line.as_slice()) {
        Ok(()) => {}
        Err(Failed) => return FactsStatus::WriteFault,
    }
    match err.flush() {
        Ok(()) => status,
        Err(Failed) => FactsStatus::WriteFault,
    }
}

/// How the program ended, and what it read and wrote through.
#[derive(Drop)]
pub struct Ran<'a, R: Files, O, E> {
    pub status: FactsStatus,
    pub source: StdSource<'a, R>,
    pub out: StdSink<O>,
    pub err: StdSink<E>,
}

/// All that the program does: [`frame_facts`] over the files of the runtime, printing on `out` and saying on `err`.
pub fn run_program<'a, R: Files, O: Write, E: Write>(
    alloc: Global,
    rt: &'a R,
    words: &[String],
    out: O,
    err: E,
) -> Ran<'a, R, O, E>
    // The source and the sinks are new, so what they gave and took is all of this one command.
    ensures tells { TellsAs (asked_in (map string_bytes words.now)) result.status new_source (⟦<StdSource<'a, R> as Source>⟧.seen result.source)
        new_sink (⟦<StdSink<O> as Sink>⟧.seen result.out) }
    ensures causes { IsCaused result.status (HasRisen 0 (⟦<StdSource<'a, R> as Source>⟧.seen result.source).faults)
        (HasRisen 0 (⟦<StdSink<O> as Sink>⟧.seen result.out).faults ⊎ HasRisen 0 (⟦<StdSink<E> as Sink>⟧.seen result.err).faults) }
{
    let mut source = StdSource::new(rt);
    let mut out = StdSink::new(out);
    let mut err = StdSink::new(err);
    let status = frame_facts(alloc, words, &mut source, &mut out, &mut err);
    Ran {
        status,
        source,
        out,
        err,
    }
}
