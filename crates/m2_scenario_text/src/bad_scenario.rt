//! Why a text is no scenario.

use crate::flaw::Flaw;
use thiserror::Error;

/// Why a text is no scenario.
#[derive(Clone, Copy, Debug, Error)]
pub enum BadScenario {
    /// The first bad line, counted from 1, and what is bad in it: the first of the kinds that apply to it.
    #[error("line {line} is bad")]
    BadLine { line: u32, flaw: Flaw },
    /// Memory ran out.
    #[error("no memory")]
    NoMemory,
}
