//! What two sides came to, as lines.

ghost use Rattle.std.specs.Prelude.{◌≡◌, ◌++◌, codes, map, OnOk};
ghost use Rattle.std.specs.List.{flat_map};
ghost use Rattle.std.specs.Option.{option_map, option_to_list};
ghost use Rattle.m2_record_trace.specs.Trace.{composed_line, did_lines, ends_lines, flags_words, half_lines, handed_lines, loose_lines, moments_words, name_of, record_lines, side_lines, stands_lines, state_line, trace_of, untaken_lines, wire_line, wire_words};
ghost use Rattle.m2_trace.specs.Ends.{end_lines, trail_lines};
ghost use Rattle.m2_trail.specs.Trails.{trail_now};

use crate::{Pair, Side, Which, Wire};
use m2_bytes::{Blob, NoMemory};
use m2_fabric::SimEnd;
use m2_record::Record;
use m2_trace::{
    put_bytes, put_end, put_flag, put_handed, put_head, put_journal, put_number, put_plan,
    put_session, put_socket, put_start, put_trail,
};
use m2_trail::{Incoming, Loose, Trail};

fn put_trails(out: &mut Blob, side: &[u8], trails: &[Trail]) -> Result<(), NoMemory>
    ensures { OnOk result (out.new.bytes ≡ out.old.bytes ++ flat_map (trail_lines side.now (codes "trail")) (map trail_now trails.now)) }
{
    for trail in trails {
        put_trail(out, side, b"trail", trail)?;
    }
    Ok(())
}

#[tactic(auto, unfolding(crate::specs::Trace::did_lines))]
fn put_did(out: &mut Blob, side: &[u8], record: &Record<SimEnd>) -> Result<(), NoMemory>
    ensures { OnOk result (out.new.bytes ≡ out.old.bytes ++ did_lines side.now record.now) }
{
    put_plan(out, side, record.plan().as_slice())?;
    put_journal(
        out,
        side,
        record.session(),
        record.facts(),
        record.journal(),
    )?;
    put_trails(out, side, record.trails().as_slice())
}

fn put_feed(out: &mut Blob, side: &[u8], feed: Option<&SimEnd>) -> Result<(), NoMemory>
    ensures { OnOk result (out.new.bytes ≡ out.old.bytes ++ flat_map (end_lines side.now (codes "feed")) (option_to_list (option_map (λ e. e.now) feed.entry))) }
{
    match feed {
        Some(end) => put_end(out, side, b"feed", end),
        None => Ok(()),
    }
}

fn put_spent(out: &mut Blob, side: &[u8], spent: &[SimEnd]) -> Result<(), NoMemory>
    ensures { OnOk result (out.new.bytes ≡ out.old.bytes ++ flat_map (end_lines side.now (codes "spent")) spent.now) }
{
    for end in spent {
        put_end(out, side, b"spent", end)?;
    }
    Ok(())
}

#[tactic(auto, unfolding(crate::specs::Trace::ends_lines))]
fn put_ends(out: &mut Blob, side: &[u8], record: &Record<SimEnd>) -> Result<(), NoMemory>
    ensures { OnOk result (out.new.bytes ≡ out.old.bytes ++ ends_lines side.now record.now) }
{
    put_feed(out, side, record.feed())?;
    put_spent(out, side, record.spent())
}

#[tactic(auto, unfolding(crate::specs::Trace::flags_words))]
fn put_flags(out: &mut Blob, record: &Record<SimEnd>) -> Result<(), NoMemory>
    ensures { OnOk result (out.new.bytes ≡ out.old.bytes ++ flags_words record.now) }
{
    put_flag(out, record.dry())?;
    put_flag(out, record.blocked())?;
    put_flag(out, record.held())
}

#[tactic(auto, unfolding(crate::specs::Trace::moments_words))]
fn put_moments(out: &mut Blob, record: &Record<SimEnd>) -> Result<(), NoMemory>
    ensures { OnOk result (out.new.bytes ≡ out.old.bytes ++ moments_words record.now) }
{
    put_number(out, record.next_dial())?;
    put_number(out, record.missed())?;
    put_number(out, record.last())
}

#[tactic(auto, unfolding(crate::specs::Trace::state_line, m2_trace::specs::Words::line))]
fn put_state(out: &mut Blob, side: &[u8], record: &Record<SimEnd>) -> Result<(), NoMemory>
    ensures { OnOk result (out.new.bytes ≡ out.old.bytes ++ state_line side.now record.now) }
{
    put_head(out, side, b"state")?;
    put_flags(out, record)?;
    put_moments(out, record)?;
    out.push_all(b"\n")
}

#[tactic(auto, unfolding(crate::specs::Trace::composed_line, m2_trace::specs::Words::line))]
fn put_composed(out: &mut Blob, side: &[u8], record: &Record<SimEnd>) -> Result<(), NoMemory>
    ensures { OnOk result (out.new.bytes ≡ out.old.bytes ++ composed_line side.now record.now) }
{
    put_head(out, side, b"composed")?;
    put_bytes(out, record.composed())?;
    out.push_all(b"\n")
}

#[tactic(auto, unfolding(crate::specs::Trace::stands_lines))]
fn put_stands(out: &mut Blob, side: &[u8], record: &Record<SimEnd>) -> Result<(), NoMemory>
    ensures { OnOk result (out.new.bytes ≡ out.old.bytes ++ stands_lines side.now record.now) }
{
    put_session(out, side, record.session())?;
    put_state(out, side, record)?;
    put_composed(out, side, record)
}

#[tactic(auto, unfolding(crate::specs::Trace::record_lines))]
fn put_record(out: &mut Blob, side: &[u8], record: &Record<SimEnd>) -> Result<(), NoMemory>
    ensures { OnOk result (out.new.bytes ≡ out.old.bytes ++ record_lines side.now record.now) }
{
    put_start(out, side, record.session(), record.facts())?;
    put_did(out, side, record)?;
    put_ends(out, side, record)?;
    put_stands(out, side, record)
}

#[tactic(auto, unfolding(crate::specs::Trace::half_lines))]
fn put_half(out: &mut Blob, side: &[u8], half: &Incoming<SimEnd>) -> Result<(), NoMemory>
    ensures { OnOk result (out.new.bytes ≡ out.old.bytes ++ half_lines side.now half.now) }
{
    put_trail(out, side, b"half", half.trail())?;
    put_end(out, side, b"half_end", half.end())
}

#[tactic(auto, unfolding(crate::specs::Trace::loose_lines))]
fn put_loose(out: &mut Blob, side: &[u8], loose: &Loose<SimEnd>) -> Result<(), NoMemory>
    ensures { OnOk result (out.new.bytes ≡ out.old.bytes ++ loose_lines side.now loose.now) }
{
    put_trail(out, side, b"loose", loose.trail())?;
    put_end(out, side, b"loose_end", loose.end())
}

fn put_halves(out: &mut Blob, side: &[u8], halves: &[Incoming<SimEnd>]) -> Result<(), NoMemory>
    ensures { OnOk result (out.new.bytes ≡ out.old.bytes ++ flat_map (half_lines side.now) halves.now) }
{
    for half in halves {
        put_half(out, side, half)?;
    }
    Ok(())
}

fn put_loose_ones(out: &mut Blob, side: &[u8], loose: &[Loose<SimEnd>]) -> Result<(), NoMemory>
    ensures { OnOk result (out.new.bytes ≡ out.old.bytes ++ flat_map (loose_lines side.now) loose.now) }
{
    for one in loose {
        put_loose(out, side, one)?;
    }
    Ok(())
}

#[tactic(auto, unfolding(crate::specs::Trace::untaken_lines))]
fn put_untaken(out: &mut Blob, name: &[u8], side: &Side) -> Result<(), NoMemory>
    ensures { OnOk result (out.new.bytes ≡ out.old.bytes ++ untaken_lines name.now side.now) }
{
    put_halves(out, name, side.halves())?;
    put_loose_ones(out, name, side.loose().as_slice())
}

#[tactic(auto, unfolding(crate::specs::Trace::handed_lines))]
fn put_both_logs(out: &mut Blob, name: &[u8], side: &Side) -> Result<(), NoMemory>
    ensures { OnOk result (out.new.bytes ≡ out.old.bytes ++ handed_lines name.now side.now) }
{
    put_handed(out, name, side.log().as_slice())?;
    put_handed(out, name, side.fast().as_slice())
}

#[tactic(auto, unfolding(crate::specs::Trace::side_lines))]
fn put_side(out: &mut Blob, name: &[u8], side: &Side) -> Result<(), NoMemory>
    ensures { OnOk result (out.new.bytes ≡ out.old.bytes ++ side_lines name.now side.now) }
{
    put_record(out, name, side.record())?;
    put_untaken(out, name, side)?;
    put_both_logs(out, name, side)
}

/// What a side is called in a trace.
fn name_of(which: Which) -> &'static [u8]
    ensures { result.now ≡ name_of which }
{
    match which {
        Which::First => b"a",
        Which::Second => b"b",
    }
}

#[tactic(auto, unfolding(crate::specs::Trace::wire_words))]
fn put_wire_words(out: &mut Blob, wire: &Wire) -> Result<(), NoMemory>
    ensures { OnOk result (out.new.bytes ≡ out.old.bytes ++ wire_words wire.now) }
{
    put_socket(out, &wire.socket)?;
    put_number(out, wire.ahead as u64)?;
    put_number(out, wire.back as u64)
}

#[tactic(auto, unfolding(crate::specs::Trace::wire_line, m2_trace::specs::Words::line))]
fn put_wire(out: &mut Blob, wire: &Wire) -> Result<(), NoMemory>
    ensures { OnOk result (out.new.bytes ≡ out.old.bytes ++ wire_line wire.now) }
{
    put_head(out, name_of(wire.opener), b"opened")?;
    put_wire_words(out, wire)?;
    out.push_all(b"\n")
}

fn put_wires(out: &mut Blob, wires: &[Wire]) -> Result<(), NoMemory>
    ensures { OnOk result (out.new.bytes ≡ out.old.bytes ++ flat_map wire_line wires.now) }
{
    for wire in wires {
        put_wire(out, wire)?;
    }
    Ok(())
}

/// Appends the trace of two sides. On Err, for want of memory, some of its lines may have been appended.
#[tactic(auto, unfolding(crate::specs::Trace::trace_of))]
pub fn put_trace(out: &mut Blob, pair: &Pair) -> Result<(), NoMemory>
    ensures { OnOk result (out.new.bytes ≡ out.old.bytes ++ trace_of pair.now) }
{
    put_side(out, b"a", pair.side(Which::First))?;
    put_side(out, b"b", pair.side(Which::Second))?;
    put_wires(out, pair.wires())
}
