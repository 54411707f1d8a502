//! What a center shows of its sockets, and what its ends are told.

ghost use Rattle.std.specs.Prelude.{◌≡◌, ◌≤◌, ◌-◌, true, length, vec_capacity, vec_len, OnErr, OnOk};
ghost use Rattle.std.specs.Option.{option_map};
ghost use Rattle.m2_edge.specs.Faults.{HasCause};
ghost use Rattle.m2_fabric.specs.End.{SeenEnd, after_news};
ghost use Rattle.m2_fabric.specs.Log.{log_of};
ghost use Rattle.m2_fabric.specs.Port.{one_hears, with_incoming, with_poll};
ghost use Rattle.m2_fabric.specs.Sockets.{is_among};
ghost use Rattle.m2_record.specs.RecordNow.{ids_of};
ghost use Rattle.m2_record.specs.Sources.{end_at};
ghost use Rattle.m2_center.specs.Reaching.{after_hearing, all_ends_in, ends_in, has_half, rest_in};
ghost use Rattle.m2_center.specs.RecordEnds.{records_hear};
ghost use Rattle.m2_turn.specs.Halves.{halves_of};
ghost use Rattle.m2_turn.specs.Hearing as hearing;

use crate::center::Center;
use crate::hearing::{half_hears, half_log};
use crate::record_ends::{any_has_end, record_log, records_hear};
use m2_bytes::NoMemory;
use m2_edge::Failed;
use m2_fabric::{End, EndLog, News, Port, SocketId, SocketIdList};
use m2_record::Record;
use m2_trail::Loose;
use m2_turn::{Pendings, are_records};

impl<P: Port, D> Center<P, D> {
    /// The sockets that its port made, in order.
    pub fn made(&self) -> &SocketIdList
        ensures { result.now.items ≡ self.now.port.made }
    {
        self.port.made()
    }

    /// How many accepts failed.
    pub fn refused(&self) -> u64
        ensures { result ≡ self.now.port.refused }
    {
        self.port.refused()
    }

    /// Waits at its port at most so many milliseconds for something to do, or not at all. Failed comes only where the
    /// port's count of faults rose.
    pub fn poll(&mut self, most: u32) -> Result<(), Failed>
        ensures causes { HasCause result self.old.port.faults self.new.port.faults }
        ensures stays { self.new ≡ record self.old { port = with_poll self.new.port.faults self.old.port } }
    {
        self.port.poll(most)
    }

    /// What its end of that socket did; none exactly where it has none, also where the socket still waits for
    /// its accept.
    pub fn log(&self, id: &SocketId) -> Option<&EndLog>
        ensures { option_map (λ log. log_of log.now) result ≡ option_map (λ (e : SeenEnd). e.log) (end_at (ends_in self.now) id.now) }
    {
        match record_log(self.records.as_slice(), id) {
            Some(log) => Some(log),
            None => half_log(&self.halves, self.loose.as_slice(), id),
        }
    }

    /// A socket waits for its accept at a port in memory from now on, where it may. Its port made each socket
    /// that it has an end of.
    pub fn incoming(&mut self, id: SocketId) -> Result<(), NoMemory>
        ensures ok { OnOk result (self.new ≡ record self.old { port = with_incoming id self.old.port }) }
        ensures err { OnErr result (self.new ≡ self.old) }
        ensures rest { rest_in self.new ≡ rest_in self.old }
        ensures made { is_among id (ids_of (ends_in self.old)) ≡ true → is_among id self.old.port.made ≡ true }
    {
        are_records(self.records.as_slice());
        self.port.incoming(id)
    }

    /// Tells its end of that socket of the other side, also one that still waits for its accept.
    pub fn hear(&mut self, id: &SocketId, bytes: &[u8], news: News) -> Result<(), NoMemory>
        ensures ok { OnOk result (self.new ≡ after_hearing id.now news bytes.now self.old) }
        ensures ends { OnOk result (ends_in self.new ≡ one_hears id.now (after_news news bytes.now) (ends_in self.old)) }
        ensures all { OnOk result (all_ends_in self.new ≡ one_hears id.now (after_news news bytes.now) (all_ends_in self.old)) }
        ensures err { OnErr result (self.new ≡ self.old) }
        ensures rest { rest_in self.new ≡ rest_in self.old }
    {
        if any_has_end(self.records.as_slice(), id) {
            return one_record_hears(&mut self.records, id, bytes, news);
        }
        if has_half(&self.halves, self.loose.as_slice(), id) {
            return one_half_hears(&mut self.halves, &mut self.loose, id, bytes, news);
        }
        self.port.hear(id, bytes, news)
    }
}

/// [`records_hear`] in a vector.
fn one_record_hears<E: End>(
    records: &mut Vec<Record<E>>,
    id: &SocketId,
    bytes: &[u8],
    news: News,
) -> Result<(), NoMemory>
    ensures ok { OnOk result (records.new.items ≡ records_hear id.now news bytes.now records.old.items) }
    ensures err { OnErr result (records.new.items ≡ records.old.items) }
{
    records_hear(records.as_mut_slice(), id, bytes, news)
}

/// Whether one of the halves, or of those that are over, is on the socket.
fn has_half<E: End>(halves: &Pendings<E>, loose: &[Loose<E>], id: &SocketId) -> bool
    ensures { result ≡ has_half id.now (halves_of halves.now loose.now) }
{
    half_log(halves, loose, id).is_some()
}

/// [`half_hears`] over a vector of those that are over.
fn one_half_hears<E: End>(
    halves: &mut Pendings<E>,
    loose: &mut Vec<Loose<E>>,
    id: &SocketId,
    bytes: &[u8],
    news: News,
) -> Result<(), NoMemory>
    requires { length halves.old ≤ vec_capacity loose.old - vec_len loose.old }
    ensures ok { OnOk result (halves_of halves.new loose.new.items ≡ hearing.after_hearing id.now news bytes.now (halves_of halves.old loose.old.items)) }
    ensures err { OnErr result ((halves.new ≡ halves.old) × (loose.new.items ≡ loose.old.items)) }
    ensures room { length halves.new ≤ vec_capacity loose.new - vec_len loose.new }
{
    half_hears(halves, loose.as_mut_slice(), id, bytes, news)
}
