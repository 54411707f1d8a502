//! What counted words are. This function does nothing: it stands for the law that its contract names.

ghost use Rattle.m2_edge.specs.Laws.{CountedWordsAreFromOne};

/// The words of a new [`CountWords`](crate::CountWords) are 1, 2 and so on, whatever their number.
pub fn counted_words_are_from_one()
    ensures { CountedWordsAreFromOne }
{}
