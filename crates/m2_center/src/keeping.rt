//! What a center keeps, for contracts alone.

ghost use Rattle.std.specs.List.{AllByRecursion};
ghost use Rattle.m2_center.specs.Center.{IsCenter};
ghost use Rattle.m2_fabric.specs.Sockets.{IsOfHome};
ghost use Rattle.m2_record.specs.IsRecord.{IsRecord};
ghost use Rattle.m2_turn.specs.Halves.{AreWhole};

use crate::center::Center;
use crate::whole::are_whole;
use m2_fabric::{MemoryPort, Port};
use m2_turn::are_records;

impl<P: Port, D> Center<P, D> {
    /// What a center is, for contracts alone: its records and halves are consistent, and all that it holds for the
    /// dispatchers was granted by its node's throttle; each of its records is one; and the trail of each half tells
    /// all that its end did.
    pub fn is_center(&self)
        ensures center { IsCenter self.now }
        ensures records { AllByRecursion IsRecord self.now.records }
        ensures halves { AreWhole self.now.halves }
    {
        are_records(self.records.as_slice());
        are_whole(&self.halves, self.loose.as_slice());
    }
}

impl<P: MemoryPort, D> Center<P, D> {
    /// That each socket that its port made comes from the port's address or goes to it, for contracts alone.
    pub fn comes_from_home(&self)
        ensures { AllByRecursion (IsOfHome self.now.port.at) self.now.port.made }
    {
        self.port.comes_from_home();
    }
}
