//! Commands.

ghost use Rattle.std.specs.Bool.{OnFalse, OnTrue};
ghost use Rattle.std.specs.Prelude.{◌≡◌, ◌≢◌, ◌∷◌, ◌++◌, IfOk, IfSome, None, OnErr, codes, drop, map, slice_get, Some, string_bytes};
ghost use Rattle.std.specs.Option.{option_map};
ghost use Rattle.m2_scenario.specs.declared.kind.Kind.TheVariants.{Number};
ghost use Rattle.m2_scenario.specs.Word.{number_of};
ghost use Rattle.m2_scenario.specs.declared.limits.TheConstants.{MOST_POSTS};
ghost use Rattle.m2_cli.specs.Form.{form_of, form_in, form_among, named_form, file_form, load_form, load_by, IsWithin};

use crate::dashes::split_at_dashes;
use crate::forms::have_form;
use crate::positions::{Positions, escaped, read_positions};
use m2_bytes::NoMemory;
use m2_scenario::{Kind, MOST_POSTS, read_number};
use std::alloc::Global;

/// What the words of a command line ask for.
#[derive(Debug, Drop)]
pub enum Command {
    /// `sim FILE`
    Sim(String),
    /// `run FILE`
    Run(String),
    /// `frames FILE`
    Frames(String),
    /// `load N SEED`
    Load { posts: u32, seed: u64 },
}

/// The command of the words behind the program's name, or none where they are of no form. Err comes for want of
/// memory, and only where they are of one.
///
/// The first word that is exactly `--` is left out. A word before it that begins with `-` and has
/// at least two bytes is no word of any form.
pub fn command_of(alloc: Global, args: &[String]) -> Result<Option<Command>, NoMemory>
    ensures form { IfOk result (λ c. option_map form_of c ≡ form_in (map string_bytes args.now)) }
    ensures within { IfOk result (λ c. IfSome c IsWithin) }
    ensures lacks { OnErr result (form_in (map string_bytes args.now) ≢ None) }
{
    let Some((before, after)) = split_at_dashes(args) else {
        return Ok(None);
    };
    if !have_form(before, after) {
        return Ok(None);
    }
    command_among(alloc, before, after)
}

/// The command of words before a `--` and behind it, of which none is an option.
fn command_among(
    alloc: Global,
    before: &[String],
    after: &[String],
) -> Result<Option<Command>, NoMemory>
    ensures form { IfOk result (λ c. option_map form_of c ≡ form_among (map string_bytes before.now ++ map string_bytes after.now)) }
    ensures within { IfOk result (λ c. IfSome c IsWithin) }
{
    let words = escaped(alloc, before, after)?;
    match read_positions(alloc, words.as_slice())? {
        Some(
            Positions {
                verb: Some(verb),
                first: Some(first),
                second,
            },
        ) => command_named(alloc, verb, first, second),
        _ => Ok(None),
    }
}

/// The command of that name.
fn command_named(
    alloc: Global,
    verb: &str,
    first: &str,
    second: Option<&str>,
) -> Result<Option<Command>, NoMemory>
    ensures form { IfOk result (λ c. option_map form_of c ≡ named_form verb.now first.now (option_map (λ w. w.now) second.entry)) }
    ensures within { IfOk result (λ c. IfSome c IsWithin) }
{
    match second {
        None => file_command(alloc, verb, first),
        Some(seed) => Ok(load_command(verb, first, seed)),
    }
}

fn file_command(alloc: Global, verb: &str, file: &str) -> Result<Option<Command>, NoMemory>
    ensures form { IfOk result (λ c. option_map form_of c ≡ file_form verb.now file.now) }
    ensures within { IfOk result (λ c. IfSome c IsWithin) }
{
    match verb {
        "sim" => Ok(Some(Command::Sim(String::from_str(alloc, file)?))),
        "run" => Ok(Some(Command::Run(String::from_str(alloc, file)?))),
        "frames" => Ok(Some(Command::Frames(String::from_str(alloc, file)?))),
        _ => Ok(None),
    }
}

fn load_command(verb: &str, posts: &str, seed: &str) -> Option<Command>
    ensures form { option_map form_of result ≡ load_form verb.now posts.now seed.now }
    ensures within { IfSome result IsWithin }
{
    match verb {
        "load" => load(posts, seed),
        _ => None,
    }
}

fn load(posts: &str, seed: &str) -> Option<Command>
    ensures form { option_map form_of result ≡ load_by (number_of Number 1 MOST_POSTS posts.now) (number_of Number 0 18446744073709551615 seed.now) }
    ensures within { IfSome result IsWithin }
{
    let Ok(posts) = read_number(Kind::Number, 1, u64::from(MOST_POSTS), posts.as_bytes()) else {
        return None;
    };
    let Ok(seed) = read_number(Kind::Number, 0, u64::MAX, seed.as_bytes()) else {
        return None;
    };
    Some(Command::Load {
        posts: posts as u32,
        seed,
    })
}
