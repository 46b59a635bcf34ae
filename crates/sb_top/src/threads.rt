// Runs on threads, in which calls are judged by the programs of the policies.
ghost use Rattle.std.specs.Prelude.{◌≤◌, ◌<◌, ◌^◌, IfOk};
ghost use Rattle.sb_book.specs.Reports.{result_count};
ghost use Rattle.sb_core.specs.Runs.{IsSomeRun};

use crate::laws::runs_are_sound;
use sb_base::NoMemory;
use sb_book::{Report, RunStart};
use sb_compile::Programs;
use sb_outside::Gate;
use sb_run::run_threads;
use std::alloc::Global;
use std::sync::Wait;
use std::thread::Threads;

/// The report of a run of a script on threads, from the namespace that it opens with, by 1 to 8 workers, in which calls are judged by the
/// programs of the policies: that of a run by some order of steps.
///
/// # Errors
/// `NoMemory` if memory for the programs or the run runs out.
pub fn run_judged<R: Threads + Wait + Sync, G: Gate>(
    rt: &R,
    alloc: Global,
    start: RunStart<'_>,
    workers: u32,
    gate: &G,
) -> Result<Report, NoMemory>
    requires workers { (1 ≤ workers) × (workers ≤ 8) }
    ensures report { IfOk result (λ r. IsSomeRun start.entry.policies start.entry.script r) }
    ensures few { IfOk result (λ r. result_count r.results < 2 ^ 62) }
{
    runs_are_sound();
    let judge = Programs::new(alloc, start.ready().policies(), start.ready().script())?;
    run_threads(rt, alloc, &judge, start, workers, gate)
}
