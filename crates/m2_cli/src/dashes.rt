//! The word `--`, and words that are options.

ghost use Rattle.std.specs.Prelude.{◌≡◌, ◌+◌, ◌<◌, ◌≤◌, ◌++◌, drop, take, IfSome, MatchOption, length, map, string_bytes, None, true};
ghost use Rattle.std.specs.List.{list_any, position_or_len, position_from};
ghost use Rattle.m2_cli.specs.Form.{form_in, form_among, is_option_word, is_dashes};

/// The words before the first `--` and those behind it. None where one before it is an option: it begins with `-` and
/// has at least two bytes.
pub(crate) fn split_at_dashes(args: &[String]) -> Option<(&[String], &[String])>
    ensures { MatchOption result (form_in (map string_bytes args.now) ≡ None)
        (λ p. form_in (map string_bytes args.now) ≡ form_among (map string_bytes p.0.now ++ map string_bytes p.1.now)) }
{
    let cut = dashes_at(args);
    let before = &args[..cut];
    let after = words_behind(args, cut);
    if has_option(before) {
        return None;
    }
    Some((before, after))
}

/// The index of the first `--`, or how many words there are.
fn dashes_at(args: &[String]) -> usize
    ensures index { result ≡ position_or_len is_dashes (map string_bytes args.now) }
    ensures within { result ≤ length args.now }
{
    first_dashes(args).unwrap_or(args.len())
}

fn first_dashes(args: &[String]) -> Option<usize>
    ensures index { result ≡ position_from (λ w. is_dashes (string_bytes w)) 0 args.now }
    ensures within { IfSome result (λ i. i < length args.now) }
{
    args.iter().position(|word| is_dashes(word))
}

/// Whether a word among them is an option.
fn has_option(words: &[String]) -> bool
    ensures { result ≡ list_any is_option_word (map string_bytes words.now) }
{
    any_option(words)
}

fn any_option(words: &[String]) -> bool
    ensures { result ≡ list_any (λ w. is_option_word (string_bytes w)) words.now }
{
    words.iter().any(|word| is_option(word))
}

/// The words behind the one at an index.
fn words_behind(args: &[String], index: usize) -> &[String]
    requires { index ≤ length args.now }
    ensures { result.now ≡ drop (index + 1) args.now }
{
    if index < args.len() {
        &args[index + 1..]
    } else {
        &args[index..]
    }
}

fn is_dashes(word: &String) -> bool
    ensures { result ≡ is_dashes (string_bytes word.now) }
{
    word.as_str() == "--"
}

fn is_option(word: &String) -> bool
    ensures { result ≡ is_option_word (string_bytes word.now) }
{
    word.len() >= 2 && word.as_bytes()[0] == b'-'
}
