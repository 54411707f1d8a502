//! Bytes that only contracts see.

ghost use Rattle.std.specs.Prelude.{◌≡◌, ℕ, List, [], ◌++◌};
ghost use Rattle.std.specs.Borrow.{ftrue};

use std::marker::Model;

/// A list of bytes that contracts see and no code keeps: it takes no memory, and its functions do
/// nothing at run time.
#[derive(Drop)]
pub struct Told {
    pub ghost bytes: { List ℕ },
}

impl Model for Told {
    ghost also_owns = { λ _. ftrue };
}

impl Told {
    /// No bytes.
    pub fn nothing() -> Told
        ensures { result.bytes ≡ [] }
    {
        Told {}
    }

    /// These bytes, and then those of a piece.
    pub fn and(_told: &Told, _piece: &[u8]) -> Told
        ensures { result.bytes ≡ _told.now.bytes ++ _piece.now }
    {
        Told {}
    }
}

unsafe impl Send for Told {}

unsafe impl Sync for Told {}
