//! What came of a run.

use m2_scenario::LogsList;
use m2_weave::Unfit;
use thiserror::Error;

/// What came of a run: of each node, in the scenario's order, what its dispatchers were called with, those of fast
/// kinds first and then the one behind the mails; and how many posts weren't dispatched, over all lossless links of
/// which neither end was marked down. Where that isn't 0 the run has stalled.
#[derive(Debug, Drop)]
pub struct Outcome {
    pub logs: LogsList,
    pub left: u64,
}

/// Why nothing came of a run.
#[derive(Debug, Drop, Error)]
pub enum RunFault {
    #[error("memory ran out")]
    NoMemory,
    /// The node at this place couldn't listen at its address.
    #[error("node {node} can't listen")]
    Bind { node: u32 },
    /// A link has no history: this byte was read and no end has written it.
    #[error("a byte was read that was not written")]
    Unfit(Unfit),
}
