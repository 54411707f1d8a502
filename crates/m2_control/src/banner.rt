//! The banner, the first bytes on a connection.

ghost use Rattle.std.specs.Prelude.{◌≡◌};
ghost use Rattle.m2_bytes.specs.Blob.{Appends};
ghost use Rattle.m2_control.specs.Banner.{IsStep, Agrees, Differs, banner_in, banner_text};
ghost use Rattle.std.specs.Prelude.{MatchBool};

use m2_bytes::{Blob, NoMemory, Reader, put_u16, put_u64};

/// `ceph v2` and a line feed.
const MAGIC: [u8; 8] = *b"ceph v2\n";
/// The length of a banner's payload at least, in bytes: its two words of features.
pub const LEAST_BANNER: u16 = 16;

/// The length of a banner's payload at most, in bytes.
pub const MOST_BANNER: u16 = 4096;

/// The features of one side: bit 0 is msgr2.1, bit 1 compression.
#[derive(Clone, Copy, Debug, PartialEq, Eq)]
pub struct Banner {
    pub supported: u64,
    pub required: u64,
}

/// What the bytes that are there so far are.
#[derive(Clone, Copy, Debug, PartialEq, Eq)]
pub enum BannerStep {
    /// A whole banner, and how many bytes it has.
    Got { banner: Banner, used: u32 },
    /// A prefix of a banner.
    NotYet,
    /// No prefix of any banner: one of the first 8 bytes is wrong, or the length is below
    /// [`LEAST_BANNER`] or above [`MOST_BANNER`] (this project's profile).
    BadBanner,
}

/// Whether those of the first 8 bytes that are there are right.
fn is_ceph(bytes: &[u8]) -> bool
    ensures { MatchBool result (Agrees bytes.now) (Differs bytes.now) }
{
    'bytes: for i in 0..8 {
        if i < bytes.len() && bytes[i] != MAGIC[i] {
            return false;
        }
    }
    true
}

/// What the bytes are of a banner.
fn banner_step(bytes: &[u8]) -> BannerStep
    ensures { IsStep result bytes.now }
{
    if !is_ceph(bytes) {
        return BannerStep::BadBanner;
    }
    if bytes.len() < 10 {
        return BannerStep::NotYet;
    }
    let (head, payload) = bytes.split_at(10);
    let length = u16::from_le_bytes([head[8], head[9]]);
    if length < LEAST_BANNER || length > MOST_BANNER {
        return BannerStep::BadBanner;
    }
    if payload.len() < length as usize {
        return BannerStep::NotYet;
    }
    let mut words = Reader::new(payload);
    match (words.u64(), words.u64()) {
        (Ok(supported), Ok(required)) => BannerStep::Got {
            banner: Banner {
                supported,
                required,
            },
            used: length as u32 + 10,
        },
        _ => BannerStep::NotYet,
    }
}

/// Reads the banner at the front. Bytes of its payload past the two words are ignored.
pub fn read_banner(bytes: &[u8]) -> BannerStep
    ensures step { IsStep result bytes.now }
    ensures value { result ≡ banner_in bytes.now }
{
    banner_step(bytes)
}

/// Appends the banner, 26 bytes.
pub fn write_banner(b: &Banner, out: &mut Blob) -> Result<(), NoMemory>
    ensures { Appends result out.old out.new (banner_text b.now) }
{
    out.reserve(26)?;
    out.push_all(&MAGIC)?;
    put_u16(out, LEAST_BANNER)?;
    put_u64(out, b.supported)?;
    put_u64(out, b.required)?;
    Ok(())
}
