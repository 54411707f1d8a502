//! Words at positions, by `clap`.

ghost use Rattle.std.specs.Prelude.{◌≡◌, ◌≢◌, ◌∷◌, ◌++◌, IfOk, None, OnOk, codes, map, drop, option_map, slice_get, Some, string_bytes};
ghost use Rattle.clap.specs.Words.{app_of, first_value, found_of, kind_of};
ghost use Rattle.m2_cli.specs.Positions.{three_arguments, Positioned};

use clap::error::ErrorKind;
use clap::{Arg, ArgMatches, Error};
use m2_bytes::NoMemory;
use std::alloc::{AllocError, Global};

/// The words at three positions, as far as there are so many.
#[derive(Clone, Copy, Debug)]
pub(crate) struct Positions<'a> {
    pub verb: Option<&'a str>,
    pub first: Option<&'a str>,
    pub second: Option<&'a str>,
}

/// A `--`, behind which no word is an option, and then these words.
pub(crate) fn escaped<'a>(
    alloc: Global,
    before: &'a [String],
    after: &'a [String],
) -> Result<Vec<&'a str>, NoMemory>
    ensures { IfOk result (λ v. map (λ w. w.now) v.items ≡ codes "--" ∷ (map string_bytes before.now ++ map string_bytes after.now)) }
{
    let mut words = Vec::new(alloc);
    words.push("--")?;
    push_words(&mut words, before)?;
    push_words(&mut words, after)?;
    Ok(words)
}

fn push_words<'a>(words: &mut Vec<&'a str>, more: &'a [String]) -> Result<(), NoMemory>
    ensures { OnOk result (map (λ w. w.now) words.new.items ≡ map (λ w. w.now) words.old.items ++ map string_bytes more.now) }
{
    for word in more {
        words.push(word.as_str())?;
    }
    Ok(())
}

/// The words behind a `--` by their positions. None where they are more than three. Err comes for want of memory.
pub(crate) fn read_positions<'a>(
    alloc: Global,
    words: &'a [&'a str],
) -> Result<Option<Positions<'a>>, NoMemory>
    requires { slice_get (map (λ w. w.now) words.now) 0 ≡ Some (codes "--") }
    ensures { IfOk result (λ p. Positioned p (drop 1 (map (λ w. w.now) words.now))) }
{
    let command = three_arguments(alloc)?;
    match command.try_get_matches_from(words) {
        Ok(matches) => Ok(Some(positions_in(&matches))),
        Err(error) => refusal(error),
    }
}

/// A command of three arguments.
fn three_arguments<'a>(alloc: Global) -> Result<clap::Command<'a>, AllocError>
    ensures { IfOk result (λ c. app_of c ≡ three_arguments) }
{
    clap::Command::new(alloc, "msgr2")
        .no_binary_name(true)
        .disable_help_flag(true)
        .disable_version_flag(true)
        .arg(Arg::new(alloc, "verb"))?
        .arg(Arg::new(alloc, "first"))?
        .arg(Arg::new(alloc, "second"))
}

fn positions_in<'a>(matches: &ArgMatches<'a>) -> Positions<'a>
    ensures verb { option_map (λ w. w.now) result.verb ≡ first_value (found_of matches.now) (codes "verb") }
    ensures first { option_map (λ w. w.now) result.first ≡ first_value (found_of matches.now) (codes "first") }
    ensures second { option_map (λ w. w.now) result.second ≡ first_value (found_of matches.now) (codes "second") }
{
    Positions {
        verb: matches.get_str("verb"),
        first: matches.get_str("first"),
        second: matches.get_str("second"),
    }
}

/// Whether words were refused for what they are, or for want of memory.
fn refusal<'a>(error: Error) -> Result<Option<Positions<'a>>, NoMemory>
    ensures { IfOk result (λ p. (p ≡ None) × (kind_of error ≢ ErrorKind.OutOfMemory)) }
{
    match error.kind() {
        ErrorKind::OutOfMemory => Err(NoMemory),
        _ => Ok(None),
    }
}
