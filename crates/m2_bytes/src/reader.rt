//! Fields at the front of a piece of bytes.

ghost use Rattle.std.specs.Prelude.{◌≡◌, ◌<◌, ◌≤◌, length, take, drop, MatchResult};
ghost use Rattle.std.specs.Int.{w8, w16, w32, w64};
ghost use Rattle.m2_bytes.specs.Fields.{ReadsField, IsFieldWritten};

use crate::fields::{number16, number32, number64};
use crate::memory::Short;
use std::marker::Model;

/// Reads fields from the front of a piece of bytes. Contracts see the bytes that are left.
///
/// Every read answers [`Short`] exactly where fewer bytes are left than it takes, and then
/// nothing is read. Numbers are little-endian.
#[derive(Debug, Drop)]
pub struct Reader<'a> {
    rest: &'a [u8],
}

impl<'a> Model for Reader<'a> {
    ghost use Rattle.std.specs.Prelude.{ℕ, List};

    ghost Value = { List ℕ };

    ghost view = { λ r. r.rest.now };
}

impl<'a> Reader<'a> {
    pub fn new(bytes: &'a [u8]) -> Reader<'a>
        ensures { result ≡ bytes.now }
    {
        Reader { rest: bytes }
    }

    /// How many bytes are left.
    pub fn left(&self) -> usize
        ensures { result ≡ length self.now }
    {
        self.rest.len()
    }

    /// The next `n` bytes, lent from the piece.
    pub fn take(&mut self, n: usize) -> Result<&'a [u8], Short>
        ensures { MatchResult result
            (λ bytes. (n ≤ length self.old) × (bytes.now ≡ take n self.old) × (self.new ≡ drop n self.old))
            (λ _. (length self.old < n) × (self.new ≡ self.old)) }
    {
        if self.rest.len() < n {
            return Err(Short);
        }
        let (front, rest) = self.rest.split_at(n);
        self.rest = rest;
        Ok(front)
    }

    pub fn u8(&mut self) -> Result<u8, Short>
        ensures reads { ReadsField w8 self.old result self.new }
        ensures written { IsFieldWritten w8 self.old result self.new }
    {
        let field = self.take(1)?;
        Ok(field[0])
    }

    pub fn u16(&mut self) -> Result<u16, Short>
        ensures reads { ReadsField w16 self.old result self.new }
        ensures written { IsFieldWritten w16 self.old result self.new }
    {
        let field = self.take(2)?;
        Ok(number16(field))
    }

    pub fn u32(&mut self) -> Result<u32, Short>
        ensures reads { ReadsField w32 self.old result self.new }
        ensures written { IsFieldWritten w32 self.old result self.new }
    {
        let field = self.take(4)?;
        Ok(number32(field))
    }

    pub fn u64(&mut self) -> Result<u64, Short>
        ensures reads { ReadsField w64 self.old result self.new }
        ensures written { IsFieldWritten w64 self.old result self.new }
    {
        let field = self.take(8)?;
        Ok(number64(field))
    }
}
