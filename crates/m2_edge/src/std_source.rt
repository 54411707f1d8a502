//! Files as a source.
//!
//! Part of the trusted edge: contracts say what the runtime's `read` put into the pieces. Which file a
//! `begin` opens, and that those bytes are the file's, is trusted.

ghost use Rattle.std.specs.Prelude.{◌≡◌, ◌≤◌, length, IfOk, OnOk};
ghost use Rattle.std.specs.Io.KnownBytes.{ReadConsumes};
ghost use Rattle.m2_edge.specs.Adapters.{left_of};
ghost use Rattle.m2_edge.specs.Faults.{HasCause};
ghost use Rattle.m2_edge.specs.Source.{BeginsInput, GivesItsInput, ReadsPiece};

use crate::count::Count;
use crate::failed::Failed;
use crate::source::{Source, finds_end};
use m2_bytes::Told;
use std::fs::File;
use std::io::{ErrorKind, Read};
use std::rt::Files;

/// Files of the runtime, by their paths. It tells what its reads gave, and nothing of what files hold.
#[derive(Drop)]
pub struct StdSource<'a, R: Files> {
    rt: &'a R,
    file: Option<R::File>,
    faults: Count,
    given: Told,
    ended: bool,
}

impl<'a, R: Files> StdSource<'a, R> {
    ghost use Rattle.std.specs.Prelude.{[], false, None};

    /// No file begun, no fault so far, and nothing read.
    pub fn new(rt: &'a R) -> StdSource<'a, R>
        ensures { ⟦<StdSource<'a, R> as Source>⟧.seen result
            ≡ record { faults = 0; given = []; ended = false; begun = None; inputs = λ _. None } }
    {
        StdSource {
            rt,
            file: None,
            faults: Count::new(),
            given: Told::nothing(),
            ended: false,
        }
    }

    /// How many faults there were.
    pub fn faults(&self) -> u64
        ensures { result ≡ (⟦<StdSource<'a, R> as Source>⟧.seen self.now).faults }
    {
        self.faults.get()
    }
}

/// Reads once, again where a signal came in between. Err where the read failed.
#[tactic(auto, using(crate::proofs::Known::keeps_same, crate::proofs::Known::keeps_keeps, crate::proofs::Known::keeps_consumes))]
fn read_some<F: Read>(file: &mut F, into: &mut [u8]) -> Result<usize, Failed>
    ensures fits { IfOk result (λ n. n ≤ length into.old) }
    ensures fetches { ReadConsumes (F.remaining file.old) (F.remaining file.new) result into.new }
{
    for _ in 0..u64::MAX {
        match file.read(into) {
            Ok(n) => return Ok(n),
            Err(e) if e.kind() == ErrorKind::Interrupted => {}
            Err(_) => return Err(Failed),
        }
    }
    Err(Failed)
}

impl<'a, R: Files> Source for StdSource<'a, R> {
    ghost use Rattle.std.specs.Prelude.{None};

    ghost seen = { λ s. record { faults = s.faults; given = s.given.bytes; ended = s.ended; begun = None; inputs = λ _. None } };

    fn begin(&mut self, name: &str) -> Result<(), Failed> {
        match File::open(self.rt, name) {
            Ok(file) => {
                self.file = Some(file);
                self.given = Told::nothing();
                self.ended = false;
                Ok(())
            }
            Err(_) => {
                self.faults.add();
                Err(Failed)
            }
        }
    }

    // What was given is what the file's remaining bytes lost, where those are known, and none only at
    // their end.
    fn read(&mut self, into: &mut [u8]) -> Result<usize, Failed>
        ensures causes { HasCause result self.old.faults self.new.faults }
        ensures fits { IfOk result (λ n. n ≤ length into.old) }
        ensures reads { ReadsPiece result into.new (⟦<StdSource<'a, R> as Source>⟧.seen self.old) (⟦<StdSource<'a, R> as Source>⟧.seen self.new) }
        ensures known { OnOk result (GivesItsInput (⟦<StdSource<'a, R> as Source>⟧.seen self.new)) }
        ensures fetches { ReadConsumes (left_of R.File.remaining self.old.file) (left_of R.File.remaining self.new.file) result into.new }
    {
        let Some(file) = &mut self.file else {
            self.ended = finds_end(0, into);
            return Ok(0);
        };
        match read_some(file, into) {
            Ok(n) => {
                self.given = Told::and(&self.given, &into[..n]);
                self.ended = finds_end(n, into);
                Ok(n)
            }
            Err(Failed) => {
                self.faults.add();
                Err(Failed)
            }
        }
    }
}
