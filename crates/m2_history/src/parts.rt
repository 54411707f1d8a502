//! What is woven of a side, and the ends of its sockets.

ghost use Rattle.std.specs.Prelude.{◌≡◌, ◌∷◌, ◌++◌, [], map, OnOk};
ghost use Rattle.std.specs.Option.{option_map, option_to_list};
ghost use Rattle.m2_history.specs.Ends.{end_now};
ghost use Rattle.m2_history.specs.Sockets.{end_by};
ghost use Rattle.m2_history.specs.Woven.{end_of, half_end};
ghost use Rattle.m2_trail.specs.Trails.{trail_now};

use crate::sockets::opened_in;
use m2_bytes::NoMemory;
use m2_fabric::{End, EndLog, SocketId};
use m2_journal::EntryList;
use m2_trail::{Loose, Trail};
use m2_weave::SocketNames;
use std::alloc::Global;
use std::marker::Model;

/// What a record did, as it lends it: its journal, the trails of the halves that it took, the feed's end
/// and the ends that were the feed.
///
/// Maker: [`of`](Parts::of).
#[derive(Drop)]
pub struct Parts<'a, E: End> {
    journal: &'a EntryList,
    trails: &'a [Trail],
    feed: Option<&'a E>,
    spent: &'a [E],
}

impl<'a, E: End> Model for Parts<'a, E> {
    ghost use Rattle.std.specs.Prelude.{◌++◌, map};
    ghost use Rattle.std.specs.Option.{option_map, option_to_list};
    ghost use Rattle.m2_history.specs.Parts.{PartsNow};
    ghost use Rattle.m2_trail.specs.Trails.{trail_now};

    ghost Value = { PartsNow };

    ghost view = { λ p. record {
      journal = p.journal.now.items;
      trails = map trail_now p.trails.now;
      ends = option_to_list (option_map (λ e. E.seen e.now) p.feed) ++ map E.seen p.spent.now;
    } };
}

impl<'a, E: End> Parts<'a, E> {
    /// A record's journal, its trails, its feed and its spent ends.
    pub fn of(
        journal: &'a EntryList,
        trails: &'a [Trail],
        feed: Option<&'a E>,
        spent: &'a [E],
    ) -> Parts<'a, E>
        ensures { result ≡ record {
          journal = journal.now.items;
          trails = map trail_now trails.now;
          ends = option_to_list (option_map (λ e. E.seen e.now) feed.entry) ++ map E.seen spent.now;
        } }
    {
        Parts {
            journal,
            trails,
            feed,
            spent,
        }
    }

    pub(crate) fn journal(&self) -> &'a EntryList
        ensures { result.now.items ≡ self.now.journal }
    {
        self.journal
    }

    pub(crate) fn trails(&self) -> &'a [Trail]
        ensures { map trail_now result.now ≡ self.now.trails }
    {
        self.trails
    }

    /// Appends all its ends, the feed's first.
    pub(crate) fn add_ends(
        &self,
        alloc: Global,
        ends: &mut Vec<EndPart<'a>>,
    ) -> Result<(), NoMemory>
        ensures { OnOk result (map end_now ends.new.items ≡ map end_now ends.old.items ++ map (end_of self.now.journal) self.now.ends) }
    {
        let opened = opened_in(alloc, self.journal)?;
        add_feed(ends, &opened, self.feed)?;
        add_spent(ends, &opened, self.spent)?;
        Ok(())
    }
}

/// What an end did on its socket, and whether its side has opened that.
#[derive(Clone, Copy)]
pub(crate) struct EndPart<'a> {
    pub(crate) socket: SocketId,
    pub(crate) opener: bool,
    pub(crate) log: &'a EndLog,
}

/// Appends an end of the side that has opened these sockets.
fn add_end<'a, E: End>(
    ends: &mut Vec<EndPart<'a>>,
    opened: &SocketNames,
    end: &'a E,
) -> Result<(), NoMemory>
    ensures { OnOk result (map end_now ends.new.items ≡ map end_now ends.old.items ++ end_by opened.now (E.seen end.now) ∷ []) }
{
    let socket = end.id();
    let opener = opened.has(&socket);
    ends.push(EndPart {
        socket,
        opener,
        log: end.log(),
    })?;
    Ok(())
}

/// Appends the ends that were the feed.
fn add_spent<'a, E: End>(
    ends: &mut Vec<EndPart<'a>>,
    opened: &SocketNames,
    spent: &'a [E],
) -> Result<(), NoMemory>
    ensures { OnOk result (map end_now ends.new.items ≡ map end_now ends.old.items ++ map (end_by opened.now) (map E.seen spent.now)) }
{
    for end in spent {
        add_end(ends, opened, end)?;
    }
    Ok(())
}

/// Appends the feed's end, if there is one.
fn add_feed<'a, E: End>(
    ends: &mut Vec<EndPart<'a>>,
    opened: &SocketNames,
    feed: Option<&'a E>,
) -> Result<(), NoMemory>
    ensures { OnOk result (map end_now ends.new.items
        ≡ map end_now ends.old.items ++ map (end_by opened.now) (option_to_list (option_map (λ e. E.seen e.now) feed.entry))) }
{
    match feed {
        Some(end) => add_end(ends, opened, end),
        None => Ok(()),
    }
}

/// Appends the end of a half that neither side took.
pub(crate) fn add_half_end<'a, E: End>(
    ends: &mut Vec<EndPart<'a>>,
    half: &'a Loose<E>,
) -> Result<(), NoMemory>
    ensures { OnOk result (map end_now ends.new.items ≡ map end_now ends.old.items ++ half_end half.now ∷ []) }
{
    ends.push(EndPart {
        socket: half.id(),
        opener: false,
        log: half.end().log(),
    })?;
    Ok(())
}
