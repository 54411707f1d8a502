//! Laws of the grammar, in functions that do nothing.

ghost use Rattle.std.specs.Prelude.{◌≡◌, ◌≢◌, ◌<◌, ◌≤◌, ◌↔◌, ℕ, List, [], ◌∷◌, ◌++◌, length, take, drop};
ghost use Rattle.m2_frame.specs.declared.fault.FrameFault.{FrameFault};
ghost use Rattle.m2_frame.specs.declared.preamble.TheConstants.{PREAMBLE_BYTES};
ghost use Rattle.m2_frame.specs.Faults.{HasCause, IsBad};
ghost use Rattle.m2_frame.specs.Frame.{Parts, Fits};
ghost use Rattle.m2_frame.specs.Grammar.{IsFrameText, IsItemText, IsStreamText, AreBytes};
ghost use Rattle.m2_frame.specs.Reading.{Item, whole, text, start, bad, judge};
ghost use Rattle.m2_frame.specs.Stream.{Splits, IsOpen};
ghost use Rattle.m2_frame.specs.Text.{text_of};

/// The format's tables and the judgement are one: what is judged a text is one by the tables, to its
/// last byte; and what is one by the tables is judged so, whatever follows it. So the items that are
/// read from a stream are those whose texts it is made of.
pub fn judged_by_the_tables()
    ensures sound { (rest : List ℕ) (item : Item) (n : ℕ) → judge rest ≡ text item n → IsItemText item (take n rest) }
    ensures complete { (item : Item) (bytes more : List ℕ) → IsItemText item bytes → judge (bytes ++ more) ≡ text item (length bytes) }
    ensures stream { (items : List Item) (stream rest : List ℕ) → Splits stream items rest ↔ IsStreamText stream items rest }
{}

/// What is written for a frame that fits is its text by the format's tables, and it is read as that
/// frame, whatever follows it.
pub fn a_written_frame_is_read()
    ensures written { (f : Parts) → Fits f → AreBytes f → IsFrameText f (text_of f) }
    ensures read { (f : Parts) (more : List ℕ) → Fits f → AreBytes f → judge (text_of f ++ more) ≡ text (whole f) (length (text_of f)) }
{}

/// No text is a prefix of another: what is a text stays one whatever follows, and it lies within the
/// bytes that were judged; each proper prefix of it is a start. What is bad stays so.
pub fn no_text_begins_another()
    ensures stays { (rest more : List ℕ) (item : Item) (n : ℕ) → judge rest ≡ text item n → judge (rest ++ more) ≡ text item n }
    ensures some { (rest : List ℕ) (item : Item) (n : ℕ) → judge rest ≡ text item n → PREAMBLE_BYTES ≤ n }
    ensures within { (rest : List ℕ) (item : Item) (n : ℕ) → judge rest ≡ text item n → n ≤ length rest }
    ensures begun { (bytes : List ℕ) (item : Item) (n : ℕ) → judge bytes ≡ text item (length bytes) → n < length bytes → judge (take n bytes) ≡ start }
    ensures fault { (rest more : List ℕ) (f : FrameFault) → judge rest ≡ bad f → judge (rest ++ more) ≡ bad f }
{}

/// A stream has one reading: what is fed adds to its rest and to nothing else, what is at the front
/// of the rest is its next item, what is read from the rest comes behind what was read before, and no
/// other items can be read from it.
pub fn one_reading()
    ensures fed { (items : List Item) (stream rest more : List ℕ) → Splits stream items rest → Splits (stream ++ more) items (rest ++ more) }
    ensures next { (items : List Item) (stream rest : List ℕ) (item : Item) (n : ℕ) → Splits stream items rest → judge rest ≡ text item n → Splits stream (items ++ item ∷ []) (drop n rest) }
    ensures joined { (items others : List Item) (stream rest end : List ℕ) → Splits stream items rest → Splits rest others end → Splits stream (items ++ others) end }
    ensures only { (items others : List Item) (stream rest other : List ℕ) → Splits stream items rest → IsOpen rest → Splits stream others other → IsOpen other → (items ≡ others) × (rest ≡ other) }
{}

/// What is bad is so by the format's tables: the front is bad with a cause exactly where it has that
/// cause and none of an earlier row, and has none at all where it isn't bad. A cause is one of a part
/// that is whole, so it is the first cause of the first wrong whole part.
pub fn bad_by_the_tables()
    ensures bad { (rest : List ℕ) (f : FrameFault) → judge rest ≡ bad f ↔ IsBad f rest }
    ensures right { (rest : List ℕ) → ((f : FrameFault) → judge rest ≢ bad f) → (g : FrameFault) → ¬ HasCause rest g }
{}
