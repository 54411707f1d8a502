//! The line of a frame.

ghost use Rattle.std.specs.Prelude.{◌≡◌, ◌++◌, OnOk};
ghost use Rattle.m2_frame.specs.Reading.{whole, dropped};
ghost use Rattle.m2_frame.specs.View.{parts_seen};
ghost use Rattle.m2_frame_facts.specs.Line.{before_place, before_tag, behind_tag, line_end, head_text, told_line, line_of, banner_line};

use crate::facts::{Facts, facts_of};
use crate::fields::{put_banner, put_facts};
use crate::style::Style;
use m2_bytes::{Blob, NoMemory, put_decimal};
use m2_control::Banner;
use m2_frame::{FrameView, Tag};
use std::alloc::Global;

fn put_before_place(out: &mut Blob, style: Style) -> Result<(), NoMemory>
    ensures { OnOk result (out.new.bytes ≡ out.old.bytes ++ before_place style) }
{
    match style {
        Style::Line => Ok(()),
        Style::Json => out.push_all(b"{\"at\":"),
    }
}

fn before_tag(style: Style) -> &'static [u8]
    ensures { result.now ≡ before_tag style }
{
    match style {
        Style::Line => b" ",
        Style::Json => b",\"tag\":\"",
    }
}

fn put_behind_tag(out: &mut Blob, style: Style) -> Result<(), NoMemory>
    ensures { OnOk result (out.new.bytes ≡ out.old.bytes ++ behind_tag style) }
{
    match style {
        Style::Line => Ok(()),
        Style::Json => out.push_all(b"\""),
    }
}

fn line_end(style: Style) -> &'static [u8]
    ensures { result.now ≡ line_end style }
{
    match style {
        Style::Line => b"\n",
        Style::Json => b"}\n",
    }
}

/// Appends the place and a name.
#[tactic(auto, unfolding(crate::specs::Line::head_text))]
fn put_head(out: &mut Blob, style: Style, place: u64, name: &str) -> Result<(), NoMemory>
    ensures { OnOk result (out.new.bytes ≡ out.old.bytes ++ head_text style place name.now) }
{
    put_before_place(out, style)?;
    put_decimal(out, place)?;
    out.push_all(before_tag(style))?;
    out.push_all(name.as_bytes())?;
    put_behind_tag(out, style)
}

/// Appends the line of a frame with this tag that says these facts.
#[tactic(auto, unfolding(crate::specs::Line::told_line))]
fn put_told(
    out: &mut Blob,
    style: Style,
    place: u64,
    tag: u8,
    facts: &Facts,
) -> Result<(), NoMemory>
    ensures { OnOk result (out.new.bytes ≡ out.old.bytes ++ told_line style place tag facts.now) }
{
    put_head(out, style, place, Tag::name_of_number(tag))?;
    put_facts(out, style, facts)?;
    out.push_all(line_end(style))
}

/// Appends the line of a frame whose first byte stands at this place.
pub fn put_frame_line(
    alloc: Global,
    out: &mut Blob,
    style: Style,
    place: u64,
    frame: &FrameView<'_>,
) -> Result<(), NoMemory>
    ensures { OnOk result (out.new.bytes ≡ out.old.bytes ++ line_of style place (whole (parts_seen frame.now))) }
{
    let facts = facts_of(alloc, frame)?;
    put_told(out, style, place, frame.tag, &facts)
}

/// Appends the line of a frame that its sender gave up, whose first byte stands at this place.
#[tactic(auto, unfolding(crate::specs::Line::line_of))]
pub fn put_aborted_line(out: &mut Blob, style: Style, place: u64, tag: u8) -> Result<(), NoMemory>
    ensures { OnOk result (out.new.bytes ≡ out.old.bytes ++ line_of style place (dropped tag)) }
{
    put_told(out, style, place, tag, &Facts::Aborted)
}

/// Appends the line of a banner, the first bytes of a file.
#[tactic(auto, unfolding(crate::specs::Line::banner_line))]
pub fn put_banner_line(out: &mut Blob, style: Style, banner: &Banner) -> Result<(), NoMemory>
    ensures { OnOk result (out.new.bytes ≡ out.old.bytes ++ banner_line style banner.now) }
{
    put_head(out, style, 0, "BANNER")?;
    put_banner(out, style, banner)?;
    out.push_all(line_end(style))
}
