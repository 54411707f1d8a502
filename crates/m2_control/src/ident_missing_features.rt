//! The payload of IDENT_MISSING_FEATURES.

ghost use Rattle.std.specs.Prelude.{◌≡◌, ◌≤◌, length};
ghost use Rattle.m2_bytes.specs.Blob.{Appends};
ghost use Rattle.m2_control.specs.Outcome.{GivesFront};
ghost use Rattle.m2_control.specs.IdentMissingFeatures.{bare_ident_missing_features, ident_missing_features_at, ident_missing_features_text};

use crate::fault::ControlFault;
use m2_bytes::{Blob, NoMemory, Reader, put_u64};

/// Refuses an ident that lacks features.
#[derive(Clone, Copy, Debug, PartialEq, Eq)]
pub struct IdentMissingFeatures {
    /// The features that are missing.
    pub bits: u64,
}

impl IdentMissingFeatures {
    pub(crate) fn read(r: &mut Reader<'_>) -> Result<IdentMissingFeatures, ControlFault>
        ensures { GivesFront bare_ident_missing_features result r.new (ident_missing_features_at r.old) }
    {
        let bits = r.u64()?;
        Ok(IdentMissingFeatures { bits })
    }

    pub(crate) fn write(&self, out: &mut Blob) -> Result<(), NoMemory>
        ensures { Appends result out.old out.new (ident_missing_features_text self.now) }
    {
        put_u64(out, self.bits)
    }
}
