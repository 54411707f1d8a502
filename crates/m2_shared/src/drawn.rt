//! Numbers that only contracts see.

ghost use Rattle.std.specs.Prelude.{◌≡◌, ℕ, List, [], ◌∷◌, ◌++◌};
ghost use Rattle.std.specs.Borrow.{ftrue};

use std::marker::Model;

/// A list of numbers that contracts see and no code keeps: it takes no memory, and its functions do
/// nothing at run time.
#[derive(Drop)]
pub(crate) struct Drawn {
    pub ghost numbers: { List ℕ },
}

impl Model for Drawn {
    ghost also_owns = { λ _. ftrue };
}

impl Drawn {
    /// No numbers.
    pub(crate) fn nothing() -> Drawn
        ensures { result.numbers ≡ [] }
    {
        Drawn {}
    }

    /// These numbers, and then one more.
    pub(crate) fn and(_drawn: &Drawn, _number: &u64) -> Drawn
        ensures { result.numbers ≡ _drawn.now.numbers ++ _number.now ∷ [] }
    {
        Drawn {}
    }
}

unsafe impl Send for Drawn {}

unsafe impl Sync for Drawn {}
