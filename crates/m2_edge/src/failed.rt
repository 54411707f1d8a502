//! The one answer of a source or sink that couldn't do its work.

use thiserror::Error;

/// The outside failed. The count of faults of what was called rose in that call.
#[derive(Clone, Copy, Debug, PartialEq, Eq, Error)]
#[error("input or output failed")]
pub struct Failed;
