//! Whether words are of a form, told without memory.

ghost use Rattle.std.specs.Bool.{OnFalse, OnTrue};
ghost use Rattle.std.specs.Prelude.{◌≡◌, ◌≢◌, ◌∷◌, ◌++◌, [], MatchOption, None, map, string_bytes};
ghost use Rattle.m2_cli.specs.Form.{file_form, form_among, load_form};

use m2_scenario::{Kind, MOST_POSTS, read_number};

/// Whether words before a `--` and behind it, of which none is an option, are of a form.
pub(crate) fn have_form(before: &[String], after: &[String]) -> bool
    ensures none { OnFalse result (form_among (map string_bytes before.now ++ map string_bytes after.now) ≡ None) }
    ensures some { OnTrue result (form_among (map string_bytes before.now ++ map string_bytes after.now) ≢ None) }
{
    let Some((verb, before, after)) = first_of(before, after) else {
        return false;
    };
    let Some((first, before, after)) = first_of(before, after) else {
        return false;
    };
    let Some((second, before, after)) = first_of(before, after) else {
        return names_file(verb, first);
    };
    match first_of(before, after) {
        Some(_) => false,
        None => names_load(verb, first, second),
    }
}

/// The first word of these and those behind them, and what is left of both.
fn first_of<'a>(
    before: &'a [String],
    after: &'a [String],
) -> Option<(&'a str, &'a [String], &'a [String])>
    ensures { MatchOption result (map string_bytes before.now ++ map string_bytes after.now ≡ [])
        (λ p. map string_bytes before.now ++ map string_bytes after.now ≡ p.0.now ∷ (map string_bytes p.1.now ++ map string_bytes p.2.now)) }
{
    if let Some((word, rest)) = before.split_first() {
        return Some((word.as_str(), rest, after));
    }
    match after.split_first() {
        Some((word, rest)) => Some((word.as_str(), before, rest)),
        None => None,
    }
}

/// Whether these words are a command with a file.
fn names_file(verb: &str, file: &str) -> bool
    ensures none { OnFalse result (file_form verb.now file.now ≡ None) }
    ensures some { OnTrue result (file_form verb.now file.now ≢ None) }
{
    match verb {
        "sim" => true,
        "run" => true,
        "frames" => true,
        _ => false,
    }
}

/// Whether they are one with two numbers.
fn names_load(verb: &str, posts: &str, seed: &str) -> bool
    ensures none { OnFalse result (load_form verb.now posts.now seed.now ≡ None) }
    ensures some { OnTrue result (load_form verb.now posts.now seed.now ≢ None) }
{
    match verb {
        "load" => {
            read_number(Kind::Number, 1, u64::from(MOST_POSTS), posts.as_bytes()).is_ok()
                && read_number(Kind::Number, 0, u64::MAX, seed.as_bytes()).is_ok()
        }
        _ => false,
    }
}
