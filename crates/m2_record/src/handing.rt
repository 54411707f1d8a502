//! What a record hands out.

ghost use Rattle.m2_record.specs.Calls.{HandsOut};

use crate::record::Record;
use m2_bytes::Told;
use m2_dispatch::Parcel;
use m2_fabric::End;

impl<E: End> Record<E> {
    /// Hands out the parcel that was ready first; none exactly where none is ready.
    pub fn hand(&mut self) -> Option<Parcel>
        ensures { HandsOut result self.old self.new }
    {
        let parcel = self.parcels.pop_front();
        if parcel.is_some() {
            self.handed = Told::and(&self.handed, &[0]);
        }
        parcel
    }
}
