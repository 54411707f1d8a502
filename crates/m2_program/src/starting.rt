//! What a `main` does.

use crate::program::Program;
use crate::running::run_file;
use crate::status::ProgramStatus;
use m2_bytes::NoMemory;
use m2_edge::{StdSink, StdSource};
use std::io::{ErrorKind, Write};
use std::process::ExitCode;
use std::rt::{Env, Files};
use std::{env, io};

/// All that a program of one file does: [`run_file`] on the words behind its name, over the files of the runtime, printing
/// on `out` and saying on `err`.
pub fn run_program<P: Program, R: AllocGlobal + Env + Files, O: Write + Drop, E: Write + Drop>(
    rt: &R,
    out: O,
    err: E,
) -> ExitCode {
    let mut src = StdSource::new(rt);
    let mut out = StdSink::new(out);
    let mut err = StdSink::new(err);
    let status = match words(rt) {
        Ok(words) => run_file::<P, _, _, _>(rt.alloc(), &words, &mut src, &mut out, &mut err),
        Err(NoMemory) => ProgramStatus::NoMemory,
    };
    ExitCode::from(status.code())
}

/// The words behind the program's name; none where one of them isn't text, since such words are of no form. Err is want of
/// memory.
pub fn words<R: AllocGlobal + Env>(rt: &R) -> Result<Vec<String>, NoMemory> {
    match read_words(rt) {
        Ok(words) => Ok(words),
        Err(e) if e.kind() == ErrorKind::OutOfMemory => Err(NoMemory),
        Err(_) => Ok(Vec::new(rt.alloc())),
    }
}

fn read_words<R: AllocGlobal + Env>(rt: &R) -> io::Result<Vec<String>> {
    Ok(env::args(rt)?.skip(1).collect(rt.alloc())?)
}
