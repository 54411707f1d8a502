//! In which form frames are told.

/// How each frame is told.
#[derive(Clone, Copy, Debug, PartialEq, Eq)]
pub enum Style {
    /// A line of words, `NAME=VALUE` each.
    Line,
    /// A line that is one JSON object.
    Json,
}
