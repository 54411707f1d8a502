//! The strands of both sides.

ghost use Rattle.std.specs.Prelude.{◌≡◌, ◌∷◌, ◌++◌, [], map, OnOk};
ghost use Rattle.m2_history.specs.HalfStrands.{strand_of};
ghost use Rattle.m2_history.specs.Woven.{strands_of_side};
ghost use Rattle.m2_trail.specs.Trails.{trail_now};
ghost use Rattle.m2_weave.specs.Strands.{strand_now};

use m2_bytes::NoMemory;
use m2_journal::EntryList;
use m2_trail::Trail;
use m2_weave::Strand;

/// Appends the strand of a half that has handed on its asks behind so many of its entries.
pub(crate) fn add_half<'a>(
    strands: &mut Vec<Strand<'a>>,
    trail: &'a Trail,
    judged_after: &'a [usize],
) -> Result<(), NoMemory>
    ensures { OnOk result (map strand_now strands.new.items
        ≡ map strand_now strands.old.items ++ strand_of (record (trail_now trail.now) { judged_after = judged_after.now }) ∷ []) }
{
    strands.push(Strand::Half {
        socket: trail.socket,
        entries: &trail.entries,
        judged_after,
    })?;
    Ok(())
}

/// Appends the strands of the halves that a side took.
fn add_halves<'a>(strands: &mut Vec<Strand<'a>>, trails: &'a [Trail]) -> Result<(), NoMemory>
    ensures { OnOk result (map strand_now strands.new.items ≡ map strand_now strands.old.items ++ map strand_of (map trail_now trails.now)) }
{
    for trail in trails {
        add_half(strands, trail, trail.judged_after.as_slice())?;
    }
    Ok(())
}

/// Appends the strands of a side.
pub(crate) fn add_strands<'a>(
    strands: &mut Vec<Strand<'a>>,
    journal: &'a EntryList,
    trails: &'a [Trail],
) -> Result<(), NoMemory>
    ensures { OnOk result (map strand_now strands.new.items ≡ map strand_now strands.old.items ++ strands_of_side journal.now.items (map trail_now trails.now)) }
{
    strands.push(Strand::Journal { entries: journal })?;
    add_halves(strands, trails)
}
