//! The line of each frame of a file.

use crate::{Style, put_aborted_line, put_frame_line};
use m2_bytes::{Blob, NoMemory};
use m2_frame::FrameView;
use m2_listing::Teller;
use std::alloc::Global;

/// In which form frames are told, and how many bytes of the file stand before the first of them.
#[derive(Clone, Copy, Debug)]
pub(crate) struct FrameTeller {
    pub(crate) alloc: Global,
    pub(crate) style: Style,
    pub(crate) skipped: u64,
}

impl Teller for FrameTeller {
    ghost use Rattle.m2_frame_facts.specs.Head.{line_behind};

    ghost line = { λ t place item. line_behind t.style t.skipped place item };

    fn put_frame(&self, out: &mut Blob, place: u64, frame: &FrameView<'_>) -> Result<(), NoMemory> {
        let Some(at) = self.skipped.checked_add(place) else {
            return Err(NoMemory);
        };
        put_frame_line(self.alloc, out, self.style, at, frame)
    }

    fn put_aborted(&self, out: &mut Blob, place: u64, tag: u8) -> Result<(), NoMemory> {
        let Some(at) = self.skipped.checked_add(place) else {
            return Err(NoMemory);
        };
        put_aborted_line(out, self.style, at, tag)
    }
}
