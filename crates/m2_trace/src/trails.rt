//! What halves did, as lines.

ghost use Rattle.std.specs.Prelude.{◌≡◌, ◌++◌, codes, OnOk};
ghost use Rattle.std.specs.List.{flat_map};
ghost use Rattle.m2_trail.specs.Trails.{trail_now};
ghost use Rattle.m2_trace.specs.Ends.{after_line, asks_lines, half_line, judged_line, trail_lines};
ghost use Rattle.m2_trace.specs.Entries.{judged_words};

use crate::entries::{put_entries, put_judged, put_moved};
use crate::words::put_head;
use m2_bytes::{Blob, NoMemory};
use m2_fabric::SocketId;
use m2_journal::JudgedItem;
use m2_trail::Trail;

#[tactic(auto, unfolding(crate::specs::Ends::half_line, crate::specs::Words::line))]
fn put_half(out: &mut Blob, side: &[u8], what: &[u8], t: &Trail) -> Result<(), NoMemory>
    ensures { OnOk result (out.new.bytes ≡ out.old.bytes ++ half_line side.now what.now (trail_now t.now)) }
{
    put_head(out, side, what)?;
    put_moved(out, b" named", &t.socket, t.entity as u64)?;
    out.push_all(b"\n")
}

#[tactic(auto, unfolding(crate::specs::Ends::judged_line, crate::specs::Words::line))]
fn put_judged_line(
    out: &mut Blob,
    side: &[u8],
    what: &[u8],
    socket: &SocketId,
    item: &JudgedItem,
) -> Result<(), NoMemory>
    ensures { OnOk result (out.new.bytes ≡ out.old.bytes ++ judged_line side.now what.now socket.now item.now) }
{
    put_head(out, side, what)?;
    put_judged_words(out, socket, item)?;
    out.push_all(b"\n")
}

fn put_judged_words(out: &mut Blob, socket: &SocketId, item: &JudgedItem) -> Result<(), NoMemory>
    ensures { OnOk result (out.new.bytes ≡ out.old.bytes ++ (codes " judged" ++ judged_words socket.now item.now.ask item.now.answer)) }
{
    out.push_all(b" judged")?;
    put_judged(out, socket, &item.ask, &item.answer)
}

fn put_judged_lines(
    out: &mut Blob,
    side: &[u8],
    what: &[u8],
    socket: &SocketId,
    judged: &[JudgedItem],
) -> Result<(), NoMemory>
    ensures { OnOk result (out.new.bytes ≡ out.old.bytes ++ flat_map (judged_line side.now what.now socket.now) judged.now) }
{
    for item in judged {
        put_judged_line(out, side, what, socket, item)?;
    }
    Ok(())
}

#[tactic(auto, unfolding(crate::specs::Ends::after_line, crate::specs::Words::line))]
fn put_after(
    out: &mut Blob,
    side: &[u8],
    what: &[u8],
    socket: &SocketId,
    count: usize,
) -> Result<(), NoMemory>
    ensures { OnOk result (out.new.bytes ≡ out.old.bytes ++ after_line side.now what.now socket.now count) }
{
    put_head(out, side, what)?;
    put_moved(out, b" after", socket, count as u64)?;
    out.push_all(b"\n")
}

fn put_afters(
    out: &mut Blob,
    side: &[u8],
    what: &[u8],
    socket: &SocketId,
    counts: &[usize],
) -> Result<(), NoMemory>
    ensures { OnOk result (out.new.bytes ≡ out.old.bytes ++ flat_map (after_line side.now what.now socket.now) counts.now) }
{
    for count in counts {
        put_after(out, side, what, socket, *count)?;
    }
    Ok(())
}

#[tactic(auto, unfolding(crate::specs::Ends::asks_lines))]
fn put_asks(out: &mut Blob, side: &[u8], what: &[u8], t: &Trail) -> Result<(), NoMemory>
    ensures { OnOk result (out.new.bytes ≡ out.old.bytes ++ asks_lines side.now what.now (trail_now t.now)) }
{
    put_judged_lines(out, side, what, &t.socket, t.judged.as_slice())?;
    put_afters(out, side, what, &t.socket, t.judged_after.as_slice())
}

/// Appends the lines of a trail: its socket with as what the half named itself, its entries, and its judged
/// asks, and behind them how many entries there were when each of them was judged.
#[tactic(auto, unfolding(crate::specs::Ends::trail_lines))]
pub fn put_trail(out: &mut Blob, side: &[u8], what: &[u8], t: &Trail) -> Result<(), NoMemory>
    ensures { OnOk result (out.new.bytes ≡ out.old.bytes ++ trail_lines side.now what.now (trail_now t.now)) }
{
    put_half(out, side, what, t)?;
    put_entries(out, side, what, &t.entries)?;
    put_asks(out, side, what, t)
}
