//! Ends that no record has, by their sockets.

ghost use Rattle.std.specs.Prelude.{◌≡◌, ℕ, List, map, OnErr, OnOk};
ghost use Rattle.std.specs.Option.{option_map};
ghost use Rattle.m2_fabric.specs.declared.socket.SocketId.{SocketId as Socket};
ghost use Rattle.m2_fabric.specs.End.{SeenEnd, after_news};
ghost use Rattle.m2_fabric.specs.Log.{log_of};
ghost use Rattle.m2_fabric.specs.Port.{one_hears};
ghost use Rattle.m2_record.specs.RecordNow.{RecordNow};
ghost use Rattle.m2_record.specs.Sources.{end_at};
ghost use Rattle.m2_trail.specs.Arrivals.{LooseNow};
ghost use Rattle.m2_turn.specs.Halves.{halves_of, sessions_with};
ghost use Rattle.m2_turn.specs.Hearing.{after_hearing, ends_in, first_told, is_loose_on, loose_told};
ghost use Rattle.m2_turn.specs.Sessions.{AreConsistent, Supply};

use m2_bytes::NoMemory;
use m2_fabric::{End, EndLog, News, SocketId};
use m2_trail::Loose;
use m2_turn::Pendings;

/// What the end of that socket did, of halves and of those that are over; none exactly where none of them
/// is on it.
pub fn half_log<'a, E: End>(
    halves: &'a Pendings<E>,
    loose: &'a [Loose<E>],
    id: &SocketId,
) -> Option<&'a EndLog>
    ensures { option_map (λ log. log_of log.now) result
        ≡ option_map (λ (e : SeenEnd). e.log) (end_at (ends_in (halves_of halves.now loose.now)) id.now) }
{
    match halves.log(id) {
        Some(log) => Some(log),
        None => loose_log(loose, id),
    }
}

/// Tells the first end of that socket, where one of them has it, of the other side: of halves, and else of
/// those that are over. Err for want of memory changes nothing.
pub fn half_hears<E: End>(
    halves: &mut Pendings<E>,
    loose: &mut [Loose<E>],
    id: &SocketId,
    bytes: &[u8],
    news: News,
) -> Result<(), NoMemory>
    ensures ok { OnOk result (halves_of halves.new loose.new ≡ after_hearing id.now news bytes.now (halves_of halves.old loose.old)) }
    ensures ends { OnOk result (ends_in (halves_of halves.new loose.new) ≡ one_hears id.now (after_news news bytes.now) (ends_in (halves_of halves.old loose.old))) }
    ensures err { OnErr result ((halves.new ≡ halves.old) × (loose.new ≡ loose.old)) }
    ensures consistent { (supply : Supply) (entity : ℕ) (made : List Socket) (records : List RecordNow)
        → AreConsistent supply entity (sessions_with made records (halves_of halves.old loose.old))
        → AreConsistent supply entity (sessions_with made records (halves_of halves.new loose.new)) }
{
    if halves.has(id) {
        halves.hear(id, bytes, news)
    } else {
        loose_hears(loose, id, bytes, news)
    }
}

/// What the end of that socket did, of halves that are over.
fn loose_log<'a, E: End>(loose: &'a [Loose<E>], id: &SocketId) -> Option<&'a EndLog>
    ensures { option_map (λ log. log_of log.now) result ≡ option_map (λ (e : SeenEnd). e.log) (end_at (map (λ (l : LooseNow). l.end) loose.now) id.now) }
{
    'halves: for half in loose {
        if id.is_same(&half.id()) {
            return Some(half.end().log());
        }
    }
    None
}

/// Tells the end of the first half that is over on that socket, where there is one, of the other side.
fn loose_hears<E: End>(
    loose: &mut [Loose<E>],
    id: &SocketId,
    bytes: &[u8],
    news: News,
) -> Result<(), NoMemory>
    ensures ok { OnOk result (loose.new ≡ first_told (is_loose_on id.now) (loose_told news bytes.now) loose.old) }
    ensures err { OnErr result (loose.new ≡ loose.old) }
{
    match loose.split_first_mut() {
        None => Ok(()),
        Some((first, rest)) => {
            if id.is_same(&first.id()) {
                first.hear(bytes, news)
            } else {
                loose_hears(rest, id, bytes, news)
            }
        }
    }
}
