//! The cookies that a node draws.

ghost use Rattle.std.specs.Prelude.{◌≡◌, ◌<◌};
ghost use Rattle.m2_session.specs.Cookies as cookies;

use m2_control::GREATEST_NUMBER;

/// How many nodes cookies can tell apart.
pub const MOST_PLACES: u32 = 255;

/// What a cookie is made of.
#[derive(Clone, Copy, Debug, PartialEq, Eq)]
pub struct CookieParts {
    /// The node's place among the nodes, from 0.
    pub place: u32,
    /// The node's salt, drawn once for a run.
    pub salt: u16,
    /// The global number of the frame for which the cookie is drawn.
    pub number: u64,
}

/// The cookie of these parts: the place plus 1 in its top 8 bits, the salt in the next 16, and in
/// the low 40 the number modulo 2^40; 0, which is none, under a lossy policy.
pub fn cookie_of(lossy: bool, parts: &CookieParts) -> u64
    requires { parts.now.place < MOST_PLACES }
    ensures { result ≡ cookies.cookie_of lossy parts.now }
{
    if lossy {
        return 0;
    }
    let place = (parts.place as u64 + 1) * (1 << 56);
    let salt = parts.salt as u64 * (1 << 40);
    place + salt + parts.number % GREATEST_NUMBER
}
