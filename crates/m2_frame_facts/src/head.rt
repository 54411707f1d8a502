//! The first bytes of a file, which show whether it begins with a banner.

ghost use Rattle.std.specs.Prelude.{◌≡◌, ◌≢◌, ◌<◌, ◌≤◌, length, IfOk, MatchBool};
ghost use Rattle.m2_control.specs.declared.banner.BannerStep.TheVariants as step;
ghost use Rattle.m2_control.specs.Banner.{banner_in};
ghost use Rattle.m2_edge.specs.Source.{GivesItsInput};
ghost use Rattle.m2_frame_facts.specs.declared.head.TheConstants.{MOST_HEAD};
ghost use Rattle.m2_edge.specs.Whole.{HasReadCause};
ghost use Rattle.m2_frame_facts.specs.Head.{BeginsIn, IsHead};

use m2_bytes::Blob;
use m2_control::{BannerStep, read_banner};
use m2_edge::{ReadFault, Source};
use std::alloc::Global;

/// How many bytes show in any case whether they begin with a banner: those of the longest one.
pub(crate) const MOST_HEAD: usize = 4106;

/// Reads the first bytes of the file of that name, until they show whether they begin with a banner, or to its end.
pub(crate) fn read_head<S: Source>(
    alloc: Global,
    src: &mut S,
    name: &str,
) -> Result<Blob, ReadFault>
    // A fault is answered only where one happened in this call.
    ensures causes { HasReadCause result (S.seen src.old).faults (S.seen src.new).faults }
    ensures begins { BeginsIn result name.now (S.seen src.old) (S.seen src.new) }
    ensures few { IfOk result (λ head. length head.bytes ≤ MOST_HEAD) }
    ensures known { IfOk result (λ _. GivesItsInput (S.seen src.new)) }
    ensures head { IfOk result (λ head. IsHead head.bytes (S.seen src.new)) }
{
    let mut head = Blob::empty(alloc);
    src.begin(name)?;
    'reads: loop {
        if !read_more(src, &mut head)? {
            return Ok(head);
        }
    }
}

/// Reads once more, if what came doesn't show it yet. Whether it may still be open.
fn read_more<S: Source>(src: &mut S, head: &mut Blob) -> Result<bool, ReadFault>
    requires few { length head.old.bytes ≤ MOST_HEAD }
    requires given { head.old.bytes ≡ (S.seen src.old).given }
    requires known { GivesItsInput (S.seen src.old) }
    ensures causes { HasReadCause result (S.seen src.old).faults (S.seen src.new).faults }
    ensures inputs { (S.seen src.new).inputs ≡ (S.seen src.old).inputs }
    ensures begun { (S.seen src.new).begun ≡ (S.seen src.old).begun }
    ensures known { GivesItsInput (S.seen src.new) }
    ensures few { IfOk result (λ _. length head.new.bytes ≤ MOST_HEAD) }
    ensures given { IfOk result (λ _. head.new.bytes ≡ (S.seen src.new).given) }
    ensures goes_on { IfOk result (λ more. MatchBool more (length head.old.bytes < length head.new.bytes) (IsHead head.new.bytes (S.seen src.new))) }
{
    if !is_open(head.as_slice()) {
        return Ok(false);
    }
    let mut buffer = [0u8; MOST_HEAD];
    let room = MOST_HEAD - head.len();
    let n = src.read(&mut buffer[..room])?;
    head.push_all(&buffer[..n])?;
    Ok(n > 0)
}

/// Whether it doesn't show yet. There is room for more bytes then.
fn is_open(head: &[u8]) -> bool
    ensures { MatchBool result (length head.now < MOST_HEAD) (banner_in head.now ≢ step.NotYet) }
{
    match read_banner(head) {
        BannerStep::NotYet => true,
        BannerStep::Got { .. } | BannerStep::BadBanner => false,
    }
}
