//! Waking the event threads of a node.

ghost use Rattle.std.specs.Prelude.{◌≡◌, ◌++◌, ◌∷◌, []};

use m2_bytes::{NoMemory, Told};
use std::alloc::Global;
use std::sync::{Arc, Wait};
use std::thread::Parker;
use std::time::Duration;

/// The mark of one ring, where contracts count them.
const RING: u8 = 1;

/// A bell for each port of a node. Whatever comes to the node rings them all, since the thread that reads
/// an end needn't be the one whose port made it.
///
/// A thread sleeps at the bell of its port. A bell that rang since its last sleep ends the next one at
/// once, so nothing that comes between a look and a sleep is missed.
#[derive(Drop)]
pub(crate) struct Bells {
    parkers: Vec<Parker>,
}

impl Bells {
    /// Bells for so many ports.
    pub(crate) fn new(alloc: Global, count: u32) -> Result<Bells, NoMemory> {
        let mut parkers = Vec::with_capacity(alloc, count as usize)?;
        for _ in 0..count {
            parkers.push(Parker::new())?;
        }
        Ok(Bells { parkers })
    }

    /// Rings all bells.
    pub(crate) fn ring(&self) {
        for parker in self.parkers.iter() {
            parker.unpark();
        }
    }

    /// Sleeps until the bell at a place rings, or has rung since the last sleep, but no longer than so many
    /// milliseconds. It may end early.
    pub(crate) fn sleep<R: Wait>(&self, rt: &R, place: u32, most: u32) {
        if let Some(parker) = self.parkers.get(place as usize) {
            parker.park_timeout(rt, Duration::from_millis(most as u64));
        }
    }
}

/// Rings all of these bells, where there are any, and notes that for contracts.
pub(crate) fn ring_all(bells: &Option<Arc<Bells, Global>>, rung: &mut Told)
    ensures { rung.new.bytes ≡ rung.old.bytes ++ RING ∷ [] }
{
    if let Some(bells) = bells {
        bells.ring();
    }
    *rung = Told::and(&*rung, &[RING]);
}
