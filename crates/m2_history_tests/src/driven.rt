//! Runs of two records, each driven as a seed says: their sides are woven, and the history is walked along by
//! a check that knows nothing of how it was found. At the end all that was posted is dispatched.

use crate::driving::{PRIORITIES, drive, fast_kinds, pair};
use crate::walking::{Sides, are_carried, is_in_order};
use m2_bytes::NoMemory;
use m2_fabric::SimEnd;
use m2_history::{Side, accepted, are_of_link, dispatched, posted, weave};
use m2_policy::{Key, Path};
use m2_record_trace::{Pair, Which};
use m2_trail::LooseList;
use std::alloc::Global;

/// How many runs there are.
const RUNS: u64 = 120;

/// What a run came to.
#[derive(Clone, Copy)]
struct Outcome {
    /// Its sides are woven, the walk along finds each entry so, and the same steps backwards are no order.
    fits: bool,
    /// Of each key as many were accepted and dispatched as posted, and that is all that was planned.
    arrived: bool,
    posts: usize,
    sockets: usize,
}

/// A side of a pair as it is woven.
fn side_of(p: &Pair, at: Which) -> Side<'_, SimEnd> {
    let side = p.side(at);
    Side {
        record: side.record(),
        fast: side.fast(),
        log: side.log(),
    }
}

/// Whether both sides are woven, and the history is in order, and backwards isn't.
fn is_woven(alloc: Global, s: &Sides<'_>) -> Result<bool, NoMemory> {
    if !are_of_link(&s.near, &s.far, s.loose) || !are_carried(s) {
        return Ok(false);
    }
    let Ok(history) = weave(alloc, &s.near, &s.far, s.loose) else {
        return Ok(false);
    };
    let mut steps = history.steps.into_vec();
    let ahead = is_in_order(alloc, s, &steps)?;
    steps.reverse();
    Ok(ahead && !is_in_order(alloc, s, &steps)?)
}

/// How many messages of a key a side posted, where as many were accepted and dispatched at the other; else 0.
fn arrived(
    alloc: Global,
    from: &Side<'_, SimEnd>,
    to: &Side<'_, SimEnd>,
    key: Key,
) -> Result<usize, NoMemory> {
    let posts = posted(alloc, from, &fast_kinds(), key)?.len();
    let calls = dispatched(alloc, to, from.record.facts().number, key)?.len();
    if posts == calls && accepted(to, key) == posts as u64 {
        Ok(posts)
    } else {
        Ok(0)
    }
}

/// How many so of all keys.
fn all_arrived(
    alloc: Global,
    from: &Side<'_, SimEnd>,
    to: &Side<'_, SimEnd>,
) -> Result<usize, NoMemory> {
    let mut count: usize = 0;
    for priority in PRIORITIES {
        for path in [Path::Fast, Path::Queued] {
            let more = arrived(alloc, from, to, Key { priority, path })?;
            count = count.saturating_add(more);
        }
    }
    Ok(count)
}

/// What a pair came to that is over.
fn outcome_of(alloc: Global, p: &Pair, loose: &LooseList<SimEnd>) -> Result<Outcome, NoMemory> {
    let s = Sides {
        near: side_of(p, Which::First),
        far: side_of(p, Which::Second),
        wires: p.wires(),
        loose,
    };
    let near = s.near.record.plan().len();
    let far = s.far.record.plan().len();
    let fits = is_woven(alloc, &s)?;
    let ahead = all_arrived(alloc, &s.near, &s.far)?;
    let back = all_arrived(alloc, &s.far, &s.near)?;
    Ok(Outcome {
        fits,
        arrived: ahead == near && back == far,
        posts: near.saturating_add(far),
        sockets: s.wires.len(),
    })
}

/// The run of a seed.
fn run(alloc: Global, seed: u64) -> Result<Outcome, NoMemory> {
    let mut p = pair(alloc);
    let driven = drive(alloc, &mut p, seed);
    let found = match p.take_loose() {
        Ok(loose) => outcome_of(alloc, &p, &loose),
        Err(_) => Err(NoMemory),
    };
    p.finish();
    driven?;
    found
}

#[test]
fn driven_records_are_woven(rt: HostRuntime) -> Result<(), NoMemory> {
    let alloc = rt.alloc();
    let mut posts: usize = 0;
    let mut sockets: usize = 0;
    for seed in 0..RUNS {
        let run = run(alloc, seed)?;
        assert!(rt; run.fits, "woven, at seed {seed}");
        assert!(rt; run.arrived, "arrived, at seed {seed}");
        posts = posts.saturating_add(run.posts);
        sockets = sockets.saturating_add(run.sockets);
    }
    // the seeds do what they are for: some twenty posts in each run, and more than one socket
    assert!(rt;
        posts > 1800 && sockets > 480,
        "{posts} posts, {sockets} sockets"
    );
    Ok(())
}
