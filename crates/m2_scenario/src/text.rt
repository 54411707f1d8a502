//! A text in pieces: cuts at separators, and the words of a line.

ghost use Rattle.std.specs.Prelude.{◌≡◌, ◌==◌, ◌<◌, ◌≤◌, ◌∷◌, [], length, drop, position, Some, None, IfSome, MatchOption};
ghost use Rattle.m2_scenario.specs.Text.{cut_at, pieces, words_of};

use std::marker::Model;

// Where the first such byte stands.
fn mark_in(bytes: &[u8], mark: u8) -> Option<usize>
    ensures at { result ≡ position (λ b. b == mark) bytes.now }
    ensures below { IfSome result (λ i. i < length bytes.now) }
{
    bytes.iter().position(|b| *b == mark)
}

/// What stands before the first separator and what stands after it; none exactly where there is no
/// separator.
pub fn cut(bytes: &[u8], mark: u8) -> Option<(&[u8], &[u8])>
    ensures parts { MatchOption result (cut_at mark bytes.now ≡ None) (λ p. cut_at mark bytes.now ≡ Some (p.0.now, p.1.now)) }
    ensures pieces { MatchOption result (pieces mark bytes.now ≡ bytes.now ∷ []) (λ p. pieces mark bytes.now ≡ p.0.now ∷ pieces mark p.1.now) }
    ensures shorter { IfSome result (λ p. length p.1.now < length bytes.now) }
{
    match mark_in(bytes, mark) {
        None => None,
        Some(at) => {
            let (before, rest) = bytes.split_at(at);
            let (_, rest) = rest.split_at(1);
            Some((before, rest))
        }
    }
}

/// The words of a line that are left, lent from the line. Contracts see the list of them.
///
/// [`words_in`](crate::words_in) gives it; [`next`](Words::next) and [`take`](Words::take) take the
/// first word out, [`skip`](Words::skip) takes several, and [`len`](Words::len) counts.
#[derive(Debug, Drop)]
pub struct Words<'a> {
    rest: &'a [u8],
}

impl<'a> Model for Words<'a> {
    ghost use Rattle.std.specs.Prelude.{ℕ, List};
    ghost use Rattle.m2_scenario.specs.Text.{words_of};

    ghost Value = { List (List ℕ) };

    ghost view = { λ w. words_of w.rest.now };
}

impl<'a> Words<'a> {
    pub(crate) fn of(line: &'a [u8]) -> Words<'a>
        ensures { result ≡ words_of line.now }
    {
        Words { rest: line }
    }

    /// Takes the first word out; none exactly where none is left.
    pub fn next(&mut self) -> Option<&'a [u8]>
        ensures { MatchOption result ((self.old ≡ []) × (self.new ≡ [])) (λ w. self.old ≡ w.now ∷ self.new) }
    {
        let (word, rest) = first_word(self.rest)?;
        self.rest = rest;
        Some(word)
    }

    /// Takes the first word out, where there is one.
    pub fn take(&mut self) -> &'a [u8]
        requires { 0 < length self.old }
        ensures { self.old ≡ result.now ∷ self.new }
    {
        match self.next() {
            Some(word) => word,
            None => unreachable!(),
        }
    }

    /// The same words, to look ahead.
    pub fn copy(&self) -> Words<'a>
        ensures { result ≡ self.now }
    {
        Words { rest: self.rest }
    }

    /// Takes so many words out, which must be there.
    pub fn skip(&mut self, count: usize)
        requires { count ≤ length self.old }
        ensures { self.new ≡ drop count self.old }
    {
        if count > 0 {
            self.take();
            self.skip(count - 1);
        }
    }

    /// How many words are left. It goes over the line.
    pub fn len(&self) -> usize
        ensures { result ≡ length self.now }
    {
        let bytes = self.rest.len();
        let mut count = 0;
        let mut rest = self.rest;
        'words: while let Some((_, more)) = first_word(rest) {
            count += 1;
            rest = more;
        }
        count
    }
}

// The first word and what stands after it; none where there are only spaces.
fn first_word(bytes: &[u8]) -> Option<(&[u8], &[u8])>
    ensures word { MatchOption result (words_of bytes.now ≡ []) (λ p. words_of bytes.now ≡ p.0.now ∷ words_of p.1.now) }
    ensures shorter { IfSome result (λ p. length p.1.now < length bytes.now) }
{
    let mut rest = bytes;
    'spaces: while let Some((word, more)) = cut(rest, b' ') {
        if !word.is_empty() {
            return Some((word, more));
        }
        rest = more;
    }
    if rest.is_empty() {
        return None;
    }
    Some((rest, b"".as_slice()))
}
