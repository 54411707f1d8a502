//! What never changes of a core.

ghost use Rattle.std.specs.Prelude.{◌≡◌};

use crate::side::Core;
use m2_fabric::End;
use m2_journal::NodeFacts;

impl<E: End> Core<E> {
    /// What the node tells its records.
    pub fn node(&self) -> &NodeFacts
        ensures { result.now ≡ self.now.facts.node }
    {
        &self.node
    }
}
