//! That the same file always prints the same, but for want of memory. Each function is a law, which its contract says.

ghost use Rattle.m2_cli.specs.OneRun.{FilesComeToOne, LoadsComeToOne, ScenariosHaveOneRun};

use m2_exact::runs_are_one;
use m2_fabric::{CutEnd, CutPort, SimEnd, SimPort};
use m2_promise::first_stays_apart;

/// But for want of memory a scenario has one run: what is told of two of them is the same, which is what the dispatchers of each node
/// were called with, in order, which links are up, and how many posts are left.
pub fn scenarios_have_one_run()
    ensures { ScenariosHaveOneRun }
{
    first_stays_apart::<CutPort<SimPort>>();
    runs_are_one::<CutEnd<SimEnd>>();
}

/// So the bytes of a file come to one status and one text.
pub fn a_file_comes_to_one_thing()
    ensures { FilesComeToOne }
{}

/// And a load comes to one status and three lines.
pub fn a_load_comes_to_one_thing()
    ensures { LoadsComeToOne }
{}
