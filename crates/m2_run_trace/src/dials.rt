//! Why connects were due, as words.

ghost use Rattle.std.specs.Prelude.{◌≡◌, slice_get};
ghost use Rattle.m2_run_trace.specs.Dials.{dial_mark_of, dial_word};

use crate::lists::at;
use crate::telling::TracedRecord;
use m2_trace::{DialCause, cause_behind, cause_word, dial_cause};
use std::marker::Model;

/// Where a record was marked: how many entries its journal had, and what made a connect of it due.
#[derive(Clone, Copy, Debug)]
pub(crate) struct DialMark {
    pub entries: usize,
    pub cause: Option<DialCause>,
}

/// A record, and where it was marked before it did something.
#[derive(Drop)]
pub(crate) struct Marked<'a> {
    pub kept: &'a TracedRecord,
    pub mark: Option<DialMark>,
}

impl<'a> Model for Marked<'a> {
    ghost use Rattle.m2_run_trace.specs.Dials.{MarkedNow};

    ghost Value = { MarkedNow };

    ghost view = { λ m. record { kept = m.kept.now; mark = m.mark } };
}

/// Where the record stands.
pub(crate) fn dial_mark_of(record: &TracedRecord) -> DialMark
    ensures { result ≡ dial_mark_of record.now }
{
    DialMark {
        entries: record.journal().len(),
        cause: dial_cause(record.session(), record.out().waits(), record.wants_dial()),
    }
}

/// The mark at a place, from 0; none exactly where there is none.
pub(crate) fn mark_at(marks: &[DialMark], place: usize) -> Option<DialMark>
    ensures { result ≡ slice_get marks.now place }
{
    match at(marks, place) {
        None => None,
        Some(mark) => Some(*mark),
    }
}

/// What made a connect due that the record's journal tells at this place, behind a space.
pub(crate) fn dial_word(marked: &Marked<'_>, place: usize) -> &'static [u8]
    ensures { result.now ≡ dial_word marked.now place }
{
    let Some(mark) = marked.mark else {
        return b"";
    };
    let before = marked.kept.journal().iter().front(place);
    cause_word(cause_behind(mark.cause, before.behind(mark.entries)))
}
