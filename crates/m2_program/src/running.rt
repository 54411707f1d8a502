//! The whole work of a program of one file.

ghost use Rattle.std.specs.Prelude.{◌≡◌, ◌≢◌, ◌⊎◌, IfErr, IfOk, map, string_bytes};
ghost use Rattle.m2_edge.specs.Faults.{HasRisen};
ghost use Rattle.m2_program.specs.Running.{IsOfFile, IsPrinted, PrintsAs, ReadsFile, SaysAs};
ghost use Rattle.m2_program.specs.declared.status.ProgramStatus.TheVariants as statuses;
ghost use Rattle.m2_program.specs.Status.{IsCaused, IsComplaint};

use crate::program::Program;
use crate::status::ProgramStatus;
use crate::writing::write_text;
use m2_bytes::Blob;
use m2_edge::{Failed, Sink, Source, read_whole};
use std::alloc::Global;

/// Prints the text of the file that the one word names on `out`, or says on `err` why there is none, and answers how it
/// ended. The file is read whole, then its text is made, and only then is anything written; of a file that has no text
/// nothing is printed.
pub fn run_file<P: Program, S: Source, O: Sink, E: Sink>(
    alloc: Global,
    args: &[String],
    src: &mut S,
    out: &mut O,
    err: &mut E,
) -> ProgramStatus
    // The one word names what is read. Other words leave the source alone.
    ensures reads { ReadsFile (map string_bytes args.now) (S.seen src.old) (S.seen src.new) }
    // Done: a text of all that was read was printed. WriteFault: a prefix of one, or nothing. Else nothing was.
    ensures prints { PrintsAs result (IsOfFile P.MOST P.makes (S.seen src.new)) (O.seen out.old) (O.seen out.new) }
    // Done says nothing. The line of any other status was said whole, but for NoMemory and WriteFault.
    ensures says { SaysAs result P.usage (E.seen err.old) (E.seen err.new) }
    // That of BadLine is a complaint of all that was read.
    ensures complains { IsComplaint result (IsOfFile P.MOST P.complains (S.seen src.new)) }
    // A fault is answered only where one happened in this call: where the count of the source, or of a sink, has risen.
    ensures causes { IsCaused result (HasRisen (S.seen src.old).faults (S.seen src.new).faults)
        (HasRisen (O.seen out.old).faults (O.seen out.new).faults ⊎ HasRisen (E.seen err.old).faults (E.seen err.new).faults) }
{
    match prepare::<P, S>(alloc, args, src) {
        Ok(text) => print::<P, O, E>(text.as_slice(), out, err),
        Err(status) => say::<P, E>(status, err),
    }
}

/// The text of the file, or how the program ends.
fn prepare<P: Program, S: Source>(
    alloc: Global,
    args: &[String],
    src: &mut S,
) -> Result<Blob, ProgramStatus>
    ensures reads { ReadsFile (map string_bytes args.now) (S.seen src.old) (S.seen src.new) }
    ensures makes { IfOk result (λ text. IsOfFile P.MOST P.makes (S.seen src.new) text.bytes) }
    ensures refuses { IfErr result (λ why. why ≢ statuses.Done) }
    ensures causes { IfErr result (λ why. IsCaused why (HasRisen (S.seen src.old).faults (S.seen src.new).faults) ⊥) }
    ensures complains { IfErr result (λ why. IsComplaint why (IsOfFile P.MOST P.complains (S.seen src.new))) }
{
    let [file] = args else {
        return Err(ProgramStatus::Usage);
    };
    let bytes = read_whole(alloc, src, file.as_str(), P::MOST)?;
    P::make(alloc, bytes.as_slice())
}

/// Prints the text; where that fails, says so.
fn print<P: Program, O: Sink, E: Sink>(text: &[u8], out: &mut O, err: &mut E) -> ProgramStatus
    ensures prints { IsPrinted result text.now (O.seen out.old) (O.seen out.new) }
    ensures causes { IsCaused result ⊥
        (HasRisen (O.seen out.old).faults (O.seen out.new).faults ⊎ HasRisen (E.seen err.old).faults (E.seen err.new).faults) }
    ensures says { SaysAs result P.usage (E.seen err.old) (E.seen err.new) }
{
    match write_text(out, text) {
        Ok(()) => ProgramStatus::Done,
        Err(Failed) => say::<P, E>(ProgramStatus::WriteFault, err),
    }
}

/// Says a status by its line. Where that fails the status is WriteFault, or NoMemory as before.
#[tactic(auto, using(crate::proofs::Endings::says_line))]
fn say<P: Program, E: Sink>(status: ProgramStatus, err: &mut E) -> ProgramStatus
    requires { status ≢ statuses.Done }
    ensures answers { (result ≡ status) ⊎ ((result ≡ statuses.WriteFault) × HasRisen (E.seen err.old).faults (E.seen err.new).faults) }
    ensures says { SaysAs result P.usage (E.seen err.old) (E.seen err.new) }
{
    match write_text(err, status.line(P::usage())) {
        Ok(()) => status,
        Err(Failed) => match status {
            ProgramStatus::NoMemory => ProgramStatus::NoMemory,
            _ => ProgramStatus::WriteFault,
        },
    }
}
