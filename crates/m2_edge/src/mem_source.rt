//! A source that is kept in memory and tells all that it holds.

ghost use Rattle.std.specs.Prelude.{◌≡◌, [], ◌+◌, ◌^◌, ◌<◌, ◌≤◌, false, length, min, take, IfOk, OnOk, MatchOption, Some, None};
ghost use Rattle.m2_edge.specs.Faults.{HasCause};
ghost use Rattle.m2_edge.specs.Source.{BeginsInput, GivesItsInput, ReadsPiece};
ghost use Rattle.m2_edge.specs.Memory.{BeginsNamed, ReadsRest, input_of, place_in, rest_of};

use crate::calls::{CallList, Calls};
use crate::failed::Failed;
use crate::input::{Input, InputList};
use crate::source::{Source, finds_end};
use std::marker::Model;

/// Named inputs in memory. Contracts see the inputs, the calls, and what was read and what is left of
/// the input that was begun last: nothing, before the first.
///
/// Calls of `begin` and `read` are counted together from 1, and those whose number is listed fail.
/// So does a `begin` of a name that no input has. Each such call is counted as a fault.
#[derive(Debug, Drop)]
pub struct MemSource {
    inputs: InputList,
    calls: Calls,
    /// The place of the begun input among the inputs, or past them.
    begun: usize,
    /// How many of its bytes were read.
    place: usize,
    /// Whether the last read found its end.
    ended: bool,
}

impl Model for MemSource {
    ghost use Rattle.m2_edge.specs.Memory.{Shelf, given_of, rest_of};

    ghost Value = { Shelf };

    ghost view = { λ s. record {
      inputs = s.inputs.items;
      calls = s.calls;
      given = given_of s.inputs.items s.begun s.place;
      rest = rest_of s.inputs.items s.begun s.place;
      ended = s.ended;
    } };
}

impl MemSource {
    /// These inputs; the calls whose number is listed will fail.
    pub fn new(inputs: InputList, fails: CallList) -> MemSource
        ensures inputs { result.inputs ≡ inputs.items }
        ensures calls { result.calls ≡ record { fails = fails.items; made = 0; faults = 0 } }
        ensures given { result.given ≡ [] }
        ensures rest { result.rest ≡ [] }
        ensures ended { result.ended ≡ false }
    {
        let begun = inputs.len();
        MemSource {
            inputs,
            calls: Calls::new(fails),
            begun,
            place: 0,
            ended: false,
        }
    }
}

/// The index of the first input of that name.
fn first_named(inputs: &[Input], name: &[u8]) -> Option<usize>
    ensures { result ≡ place_in inputs.now name.now }
{
    inputs
        .iter()
        .position(|input| input.name.as_slice() == name)
}

/// The index of what an input of that name holds.
#[tactic(auto, using(crate::proofs::Places::place_found))]
fn place_of(inputs: &[Input], name: &[u8]) -> Option<usize>
    ensures { MatchOption result (input_of inputs.now name.now ≡ None) (λ k. input_of inputs.now name.now ≡ Some (rest_of inputs.now k 0)) }
{
    first_named(inputs, name)
}

/// What is left of the input at an index, from a place on.
fn rest_at(inputs: &InputList, begun: usize, place: usize) -> &[u8]
    ensures rest { result.now ≡ rest_of inputs.now.items begun place }
    ensures fits { place + length result.now < 2 ^ 64 }
{
    match inputs.get(begun) {
        None => &[],
        Some(input) => input.bytes.as_slice().get(place..).unwrap_or(&[]),
    }
}

/// Copies as much of the rest as there is and as the piece holds. How much.
fn copy_first(rest: &[u8], into: &mut [u8]) -> usize
    ensures count { result ≡ min (length rest.now) (length into.new) }
    ensures fits { result ≤ length into.old }
    ensures copied { take result into.new ≡ take result rest.now }
{
    let n = rest.len().min(into.len());
    into[..n].copy_from_slice(&rest[..n]);
    n
}

impl Source for MemSource {
    ghost use Rattle.std.specs.Prelude.{Some, ◌++◌};

    ghost seen = { λ s. record {
      faults = s.calls.faults;
      given = s.given;
      ended = s.ended;
      begun = Some (s.given ++ s.rest);
      inputs = input_of s.inputs;
    } };

    fn begin(&mut self, name: &str) -> Result<(), Failed>
        ensures exact { BeginsNamed result name.now self.old self.new }
    {
        self.calls.call()?;
        match place_of(self.inputs.as_slice(), name.as_bytes()) {
            None => Err(self.calls.fault()),
            Some(begun) => {
                self.begun = begun;
                self.place = 0;
                self.ended = false;
                Ok(())
            }
        }
    }

    fn read(&mut self, into: &mut [u8]) -> Result<usize, Failed>
        ensures exact { ReadsRest result into.new self.old self.new }
        ensures known { OnOk result (GivesItsInput (⟦<MemSource as Source>⟧.seen self.new)) }
        ensures fits { IfOk result (λ n. n ≤ length into.old) }
    {
        self.calls.call()?;
        let rest = rest_at(&self.inputs, self.begun, self.place);
        let n = copy_first(rest, into);
        self.place += n;
        self.ended = finds_end(n, into);
        Ok(n)
    }
}
