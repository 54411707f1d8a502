//! A line of a text.

ghost use Rattle.std.specs.Prelude.{◌≡◌, ◌≤◌, length, take};
ghost use Rattle.std.specs.List.{list_all};
ghost use Rattle.m2_scenario.specs.Line.{is_printable, without_return, is_comment, is_clean, line_words};

use crate::text::Words;

fn is_printable(line: &[u8]) -> bool
    ensures { result ≡ list_all is_printable line.now }
{
    line.iter().all(|b| 32 <= *b && *b <= 126)
}

// A carriage return at the end of a line is left out.
fn without_return(line: &[u8]) -> &[u8]
    ensures { result.now ≡ without_return line.now }
{
    if !line.is_empty() && line[line.len() - 1] == b'\r' {
        return &line[..line.len() - 1];
    }
    line
}

fn is_comment(line: &[u8]) -> bool
    ensures { result ≡ is_comment line.now }
{
    matches!(line, [b'#', ..])
}

/// Whether a line has the bytes that it may have: 0x20 to 0x7E, a carriage return at its end left
/// out. What follows a `#` may be any bytes.
pub fn is_clean(line: &[u8]) -> bool
    ensures { result ≡ is_clean (without_return line.now) }
{
    let line = without_return(line);
    is_comment(line) || is_printable(line)
}

/// The words of a line without its line feed: those between its spaces, a
/// carriage return at its end left out. A line that begins with `#` has none.
///
/// [`cut`](crate::cut) at line feeds gives the lines.
pub fn words_in(line: &[u8]) -> Words<'_>
    ensures { result ≡ line_words line.now }
{
    let line = without_return(line);
    if is_comment(line) {
        return Words::of(b"");
    }
    Words::of(line)
}

/// The first `most` bytes of a text, or all where there are fewer.
pub fn prefix(bytes: &[u8], most: usize) -> &[u8]
    ensures bytes { result.now ≡ take most bytes.now }
    ensures within { length result.now ≤ most }
{
    if bytes.len() > most {
        return &bytes[..most];
    }
    bytes
}
