//! The lines of a file.

ghost use Rattle.std.specs.Prelude.{◌≡◌, ◌≤◌, ◌++◌, ℕ, List, length};
ghost use Rattle.m2_edge.specs.Source.{GivesItsInput};
ghost use Rattle.m2_frame_facts.specs.Line.{banner_line};
ghost use Rattle.m2_frame_facts.specs.declared.head.TheConstants.{MOST_HEAD};
ghost use Rattle.m2_frame_facts.specs.Head.{IsHead, PutsFront, StandsBy, Tells, line_behind};
ghost use Rattle.m2_listing.specs.Listing.{IsFaultCause, Lists, terms};
ghost use Rattle.m2_listing.specs.declared.listing.TheConstants.{LIMIT};
ghost use Rattle.m2_listing.specs.Passing.{IsPutCause};
ghost use Rattle.m2_listing.specs.Reading.{Grows};

use crate::head::{MOST_HEAD, read_head};
use crate::teller::FrameTeller;
use crate::{Style, put_banner_line};
use m2_bytes::{Blob, NoMemory};
use m2_control::{Banner, BannerStep, read_banner};
use m2_edge::{Failed, ReadFault, Sink, Source, write_whole};
use m2_frame::Decoder;
use m2_listing::{LIMIT, Listing, list_frames};
use std::alloc::Global;

/// How telling a file ended. The places in it are counted from the first byte behind the banner.
#[derive(Clone, Copy, Debug, PartialEq, Eq)]
pub struct Ended {
    pub listing: Listing,
    /// How many bytes the banner has.
    pub skipped: u64,
}

/// Writes the line of the banner.
fn put_front<O: Sink>(
    alloc: Global,
    style: Style,
    banner: &Banner,
    out: &mut O,
) -> Result<(), Listing>
    ensures causes { (O.seen out.old).faults ≤ (O.seen out.new).faults }
    ensures caused { IsPutCause result (O.seen out.old).faults (O.seen out.new).faults }
    ensures puts { PutsFront result (banner_line style banner.now) (O.seen out.old) (O.seen out.new) }
{
    let mut line = Blob::empty(alloc);
    put_banner_line(&mut line, style, banner)?;
    match write_whole(out, line.as_slice()) {
        Ok(()) => Ok(()),
        Err(Failed) => Err(Listing::WriteFault),
    }
}

/// Lists the frames behind a banner of so many bytes. These bytes were read of them.
fn list_behind<S: Source, O: Sink>(
    alloc: Global,
    style: Style,
    skipped: u64,
    read: &[u8],
    src: &mut S,
    out: &mut O,
) -> Listing
    requires few { length read.now ≤ MOST_HEAD }
    requires known { GivesItsInput (S.seen src.old) }
    ensures write_causes { (O.seen out.old).faults ≤ (O.seen out.new).faults }
    ensures caused { IsFaultCause result (S.seen src.old).faults (S.seen src.new).faults (O.seen out.old).faults (O.seen out.new).faults }
    ensures inputs { (S.seen src.new).inputs ≡ (S.seen src.old).inputs }
    ensures begun { (S.seen src.new).begun ≡ (S.seen src.old).begun }
    ensures known { GivesItsInput (S.seen src.new) }
    ensures grows { Grows (S.seen src.old) (S.seen src.new) }
    ensures lists { (front : List ℕ) → (S.seen src.old).given ≡ front ++ read.now
        → Lists result (terms front LIMIT (line_behind style skipped)) (S.seen src.new) (O.seen out.old) (O.seen out.new) }
{
    let mut decoder = Decoder::new(alloc);
    if let Err(NoMemory) = decoder.feed(read) {
        return Listing::NoMemory;
    }
    let teller = FrameTeller {
        alloc,
        style,
        skipped,
    };
    list_frames(alloc, &teller, &mut decoder, read.len(), LIMIT, src, out)
}

/// Writes a line for the banner of the file of that name, if it has one, and one for each of its frames, each with its
/// place in the file. What the first bytes say is written before more are read.
pub fn tell_frames<S: Source, O: Sink>(
    alloc: Global,
    style: Style,
    name: &str,
    src: &mut S,
    out: &mut O,
) -> Ended
    ensures write_causes { (O.seen out.old).faults ≤ (O.seen out.new).faults }
    // A fault is answered only where one happened in this call: where the count of the source, or of the sink, has risen.
    ensures caused { IsFaultCause result.listing (S.seen src.old).faults (S.seen src.new).faults (O.seen out.old).faults (O.seen out.new).faults }
    ensures stands { StandsBy result.listing name.now (S.seen src.old) (S.seen src.new) }
    ensures tells { Tells style result (S.seen src.new) (O.seen out.old) (O.seen out.new) }
{
    match read_head(alloc, src, name) {
        Ok(head) => tell_from(alloc, style, head.as_slice(), src, out),
        Err(ReadFault::Failed) => at_once(Listing::ReadFault),
        Err(ReadFault::NoMemory) => at_once(Listing::NoMemory),
    }
}

/// The same behind the head of the file.
fn tell_from<S: Source, O: Sink>(
    alloc: Global,
    style: Style,
    head: &[u8],
    src: &mut S,
    out: &mut O,
) -> Ended
    requires few { length head.now ≤ MOST_HEAD }
    requires known { GivesItsInput (S.seen src.old) }
    requires head { IsHead head.now (S.seen src.old) }
    ensures write_causes { (O.seen out.old).faults ≤ (O.seen out.new).faults }
    ensures caused { IsFaultCause result.listing (S.seen src.old).faults (S.seen src.new).faults (O.seen out.old).faults (O.seen out.new).faults }
    ensures inputs { (S.seen src.new).inputs ≡ (S.seen src.old).inputs }
    ensures begun { (S.seen src.new).begun ≡ (S.seen src.old).begun }
    ensures known { GivesItsInput (S.seen src.new) }
    ensures tells { Tells style result (S.seen src.new) (O.seen out.old) (O.seen out.new) }
{
    match read_banner(head) {
        BannerStep::Got { banner, used } => {
            if let Err(end) = put_front(alloc, style, &banner, out) {
                return at_once(end);
            }
            let (_, rest) = head.split_at(used as usize);
            let skipped = u64::from(used);
            let listing = list_behind(alloc, style, skipped, rest, src, out);
            Ended { listing, skipped }
        }
        BannerStep::NotYet => at_once(list_behind(alloc, style, 0, head, src, out)),
        BannerStep::BadBanner => at_once(list_behind(alloc, style, 0, head, src, out)),
    }
}

/// It ended so, and there is no banner, or nothing was listed.
fn at_once(listing: Listing) -> Ended
    ensures { result ≡ record { listing = listing; skipped = 0 } }
{
    Ended {
        listing,
        skipped: 0,
    }
}
