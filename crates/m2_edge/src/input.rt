//! An input that is kept in memory.

use m2_bytes::{Blob, Items};

/// The bytes of a name.
#[derive(Debug, Drop)]
pub struct Input {
    pub name: Blob,
    pub bytes: Blob,
}

/// Inputs; of two of one name the first counts.
pub type InputList = Items<Input>;
