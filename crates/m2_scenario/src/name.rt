//! Names of nodes.

ghost use Rattle.std.specs.Prelude.{◌≡◌, true, IfOk};
ghost use Rattle.m2_scenario.specs.Word.{is_name};

use m2_bytes::NoMemory;
use std::alloc::Global;
use std::marker::Model;

/// A node's name: 1 to 16 of `a` to `z`, `0` to `9` and `_`. Contracts see its bytes.
#[derive(Debug, Drop)]
pub struct Name {
    bytes: Vec<u8>,
}

impl Model for Name {
    ghost use Rattle.std.specs.Prelude.{◌≡◌, ℕ, List, true};
    ghost use Rattle.m2_scenario.specs.Word.{is_name};

    ghost Value = { List ℕ };

    ghost view = { λ n. n.bytes.items };

    ghost invariant = { λ n. is_name n.bytes.items ≡ true };
}

impl Name {
    /// The name of these bytes, copied. Err comes for want of memory.
    pub fn of(alloc: Global, bytes: &[u8]) -> Result<Name, NoMemory>
        requires { is_name bytes.now ≡ true }
        ensures { IfOk result (λ n. n ≡ bytes.now) }
    {
        let bytes = Vec::from_slice(alloc, bytes)?;
        Ok(Name { bytes })
    }

    /// Its bytes.
    pub fn as_slice(&self) -> &[u8]
        ensures bytes { result.now ≡ self.now }
        ensures name { is_name result.now ≡ true }
    {
        self.bytes.as_slice()
    }
}
