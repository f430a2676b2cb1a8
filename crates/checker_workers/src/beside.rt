// Lanes beside each other.
ghost use Rattle.std.specs.Prelude.{ℕ, ◌<◌, All, length, slice_index_or};
ghost use Rattle.checker_workers.specs.Lanes.{MayRun, Runs};

use crate::gate::Gate;
use crate::lane::Lane;
use shared_log::Shared;
use std::thread::{Threads, for_each_mut};

/// Runs every lane, each in a thread of its own where one can be made. Each lane must be fresh, and
/// its port's caller belong to the log. Afterwards each is as `Lane::run` leaves it. The gate must not
/// make one lane wait for another where no threads can be made: the lanes then run one after another.
pub fn run_lanes<R: Threads + Sync, G: Gate + Sync>(
    rt: &R,
    shared: &Shared,
    lanes: &mut [Lane],
    gate: &G,
)
    requires { All (λ l. MayRun shared.now l) lanes.old }
    ensures { (k : ℕ) (d : _) → k < length lanes.old →
        Runs (slice_index_or lanes.old k d) (slice_index_or lanes.new k d) }
{
    let threads = lanes.len();
    if threads == 0 {
        return;
    }
    for_each_mut(
        rt,
        lanes,
        threads,
        &|_, lane: &mut Lane|
            requires { MayRun shared.now lane.now }
            ensures { Runs lane.entry.now lane.exit.now }
        { lane.run(shared, gate) },
    );
}
