//! What the library lacks of lists, truth values, options and numbers, as lemmas.
//!
//! What it is: `proofs/`, whose files name what they are about. What it isn't: code. It has none, and nothing of this
//! project's own is spoken of here.
#![tactic(auto)]
