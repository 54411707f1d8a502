//! Where a trace stands.

ghost use Rattle.std.specs.Prelude.{◌≡◌, length};
ghost use Rattle.m2_run_trace.specs.Acts.{first_stage};

use m2_bytes::{Blob, Items};
use m2_fabric::{CutPort, SimPort, SocketIdList};
use m2_promise::Run;
use m2_scenario::{Link, Node};
use std::alloc::Global;
use std::marker::Model;

/// The run that is traced.
pub(crate) type MemoryRun = Run<CutPort<SimPort>>;

/// The nodes and links of a scenario.
#[derive(Drop)]
pub(crate) struct Scene<'a> {
    pub nodes: &'a [Node],
    pub links: &'a [Link],
    /// How many nodes.
    pub count: u32,
    ghost counted: { count ≡ length nodes.now },
}

/// Where a trace stands. It can't be dropped, since a run can't.
pub(crate) struct Stage {
    pub run: MemoryRun,
    /// The sockets of which there may be more to tell, in the order in which they were opened.
    pub sockets: SocketIdList,
    /// What is told so far.
    pub out: Blob,
}

impl Model for Stage {
    ghost use Rattle.m2_run_trace.specs.Acts.{StageNow};

    ghost Value = { StageNow };

    ghost view = { λ s. record { run = s.run; sockets = s.sockets.items; text = s.out.bytes } };
}

impl Stage {
    /// Nothing is told yet.
    pub(crate) fn new(alloc: Global, run: MemoryRun) -> Stage
        ensures { result ≡ first_stage run }
    {
        Stage {
            run,
            sockets: Items::empty(alloc),
            out: Blob::empty(alloc),
        }
    }
}
