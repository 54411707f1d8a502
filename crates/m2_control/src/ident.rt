//! The fields that CLIENT_IDENT and SERVER_IDENT share.

ghost use Rattle.std.specs.Prelude.{◌≡◌, ◌≤◌};
ghost use Rattle.m2_control.specs.Outcome.{GivesFront};
ghost use Rattle.m2_control.specs.Ident.{tail_at};

use crate::fault::ControlFault;
use crate::fields::bounded;
use m2_bytes::Reader;

/// What stands behind the addresses of an ident.
#[derive(Clone, Copy, Debug)]
pub(crate) struct Tail {
    pub gid: i64,
    pub global: u64,
    pub supported: u64,
    pub required: u64,
    pub flags: u64,
    pub cookie: u64,
}

impl Tail {
    /// The fields, of which the first has this number.
    #[tactic(auto, unfolding(crate::specs::Ident::tail_at))]
    pub(crate) fn read(r: &mut Reader<'_>, first: u8) -> Result<Tail, ControlFault>
        requires { first ≤ 3 }
        ensures { GivesFront (λ t. t) result r.new (tail_at first r.old) }
    {
        let gid = r.u64()?.cast_signed();
        let global = bounded(r, first + 1)?;
        let supported = r.u64()?;
        let required = r.u64()?;
        let flags = r.u64()?;
        let cookie = r.u64()?;
        if flags % 2 == 0 && cookie == 0 {
            return Err(ControlFault::BadValue { field: first + 5 });
        }
        Ok(Tail {
            gid,
            global,
            supported,
            required,
            flags,
            cookie,
        })
    }
}
