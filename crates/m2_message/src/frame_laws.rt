//! Laws of frames that carry messages, in functions that do nothing.

ghost use Rattle.std.specs.Prelude.{◌≡◌, ◌<◌, ℕ, List, length};
ghost use Rattle.std.specs.List.{All};
ghost use Rattle.m2_message.specs.declared.header.Header.{Header};
ghost use Rattle.m2_message.specs.Message.{Content, with_numbers};
ghost use Rattle.m2_frame.specs.Frame.{Parts, message_tag};
ghost use Rattle.m2_message.specs.declared.header_text.TheConstants.{HEADER_BYTES};
ghost use Rattle.m2_message.specs.HeaderText.{header_text, header_in, FieldsFit};
ghost use Rattle.m2_message.specs.MessageFrame.{message_in, Carries};

/// A header is read from its text by the places of its fields, and its text is the only one that says
/// it. So of a MESSAGE frame whose first segment has so many bytes the message can be computed.
pub fn a_header_is_its_fields()
    ensures long { (h : Header) → length (header_text h) ≡ HEADER_BYTES }
    ensures written { (h : Header) → FieldsFit h → header_in (header_text h) ≡ h }
    ensures read { (text : List ℕ) → length text ≡ HEADER_BYTES → All (λ b. b < 256) text → header_text (header_in text) ≡ text }
    ensures carried { (f : Parts) (m : Content) → Carries f m → m ≡ message_in f }
    ensures carries { (f : Parts) → f.tag ≡ message_tag → length f.first ≡ HEADER_BYTES → All (λ b. b < 256) f.first → Carries f (message_in f) }
{}

/// A frame carries one message at most. So what was put into a frame comes out of it again, with
/// the two numbers that were written and nothing else changed.
pub fn one_message()
    ensures once { (f : Parts) (m n : Content) → Carries f m → Carries f n → m ≡ n }
    ensures comes_back { (f : Parts) (m n : Content) (seq ack_seq : ℕ)
        → Carries f (with_numbers seq ack_seq m) → Carries f n → n ≡ with_numbers seq ack_seq m }
{}
