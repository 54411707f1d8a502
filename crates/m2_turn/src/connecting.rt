//! A connect that is due.

ghost use Rattle.std.specs.Prelude.{◌≡◌};
ghost use Rattle.m2_record.specs.Calls.{Owns};
ghost use Rattle.m2_shared.specs.Gates.{Places};
ghost use Rattle.m2_turn.specs.Beside.{KeepsCallers, MadeOn};
ghost use Rattle.m2_turn.specs.Connecting.{DialsIfDue, IsMadeBy};

use m2_bytes::NoMemory;
use m2_fabric::{Connect, Port};
use m2_record::{Due, Record};

/// Makes the connect that is due at this moment, where one is: a socket to the peer is asked of the port,
/// and is the record's feed then. A connect that the port can't make is missed. Err is want of memory, and
/// leaves all but room as it was.
pub fn connect_if_due<P: Port>(
    side: &mut Record<P::End>,
    port: &mut P,
    now: u64,
) -> Result<(), NoMemory>
    requires made { IsMadeBy (P.seen port.old).made side.old }
    ensures dials { DialsIfDue result now (record { side = side.old; port = P.seen port.old }) (record { side = side.new; port = P.seen port.new }) }
    ensures made { IsMadeBy (P.seen port.new).made side.new }
    ensures grows { MadeOn (P.seen port.old).made (P.seen port.new).made }
    ensures keeps { KeepsCallers (P.seen port.old).made side.old side.new }
    ensures owned { (places : Places) → Owns places side.old → Owns places side.new }
    ensures top { side.new.core.top ≡ side.old.core.top }
{
    let Due::Connect { at: _ } = side.due(now) else {
        return Ok(());
    };
    side.reserve_socket()?;
    side.is_record();
    let to = side.session().peer;
    match port.connect(&to) {
        Connect::Made(end) => match side.connected(end, now) {
            Ok(()) => {
                side.is_record();
                Ok(())
            }
            Err(_) => unreachable!(),
        },
        Connect::Failed => {
            side.not_connected(now);
            Ok(())
        }
        Connect::NoMemory => Err(NoMemory),
    }
}
