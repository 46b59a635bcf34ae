// A run on real threads, from its start to its report.
ghost use Rattle.std.specs.Prelude.{◌≡◌, ◌<◌, ◌≤◌, [], true, length, IfOk};
ghost use Rattle.sb_book.specs.Histories.{setting_of};
ghost use Rattle.sb_core.specs.Runs.{IsSomeRun};

use crate::contexts::RunContext;
use crate::crews::run_crew;
use crate::endings::end_run;
use crate::openings::{Opened, open_run};
use sb_base::{Items, NoMemory};
use sb_book::{Report, RunStart};
use sb_core::run;
use sb_outside::Gate;
use sb_rule::Judge;
use sb_shared::script_of;
use sb_statements::Schedule;
use std::alloc::Global;
use std::sync::Wait;
use std::thread::Threads;

// The schedule without steps.
fn no_steps(alloc: Global) -> Schedule
    ensures { result ≡ record { steps = []; rounds = 0 } }
{
    Schedule {
        steps: Items::empty(alloc),
        rounds: 0,
    }
}

// The report of a script without targets: there is no step to make.
fn run_no_target<J: Judge>(
    alloc: Global,
    judge: &J,
    start: RunStart<'_>,
) -> Result<Report, NoMemory>
    requires none { length start.script.targets ≡ 0 }
    requires judge { J.policies judge.now ≡ (setting_of start.policies start.script).policies }
    ensures run { IfOk result (λ r. IsSomeRun start.entry.policies start.entry.script r) }
{
    start.ready().establish_ready();
    let schedule = no_steps(alloc);
    let ran = run(alloc, judge, start, &schedule)?;
    Ok(ran.report)
}

// The run of a script with some target.
fn run_targets<R: Threads + Wait + Sync, J: Judge, G: Gate>(
    rt: &R,
    alloc: Global,
    judge: &J,
    start: RunStart<'_>,
    workers: u32,
    gate: &G,
) -> Result<Report, NoMemory>
    requires workers { (1 ≤ workers) × (workers ≤ 8) }
    requires some { 0 < length start.script.targets }
    requires judge { J.policies judge.now ≡ (setting_of start.policies start.script).policies }
    ensures run { IfOk result (λ r. IsSomeRun start.entry.policies start.entry.script r) }
{
    let script = script_of(&start);
    let opened = open_run(rt, alloc, start, workers)?;
    let Opened {
        world,
        keeper,
        threads,
        pool,
        servers,
        last,
    } = opened;
    let context = RunContext {
        judge,
        gate,
        script,
        world: &world,
        pool: &pool,
        serving: servers.len(),
    };
    let (ended, servers, keeper) = run_crew(rt, alloc, &context, threads, servers, keeper)?;
    end_run(
        rt, alloc, judge, script, world, keeper, ended, pool, servers, last,
    )
}

/// Runs a script on real threads: one for each thread of the script, and `workers` (1 to 8) that serve the targets in turn, but no more than there are
/// targets. The judge judges each target by the policy that it names. The report is that of the core for some order of steps in which no thread is left
/// unfinished.
///
/// A call that a worker judges passes the gate before the turn is tried; what is still ready once the threads of the script have ended is served
/// without it. All threads have ended when this returns, since they are of one scope. No clause says this, or which threads there were.
///
/// # Errors
/// `NoMemory` if there is none for a thread, for the caller or for the report.
pub fn run_threads<R: Threads + Wait + Sync, J: Judge, G: Gate>(
    rt: &R,
    alloc: Global,
    judge: &J,
    start: RunStart<'_>,
    workers: u32,
    gate: &G,
) -> Result<Report, NoMemory>
    requires workers { (1 ≤ workers) × (workers ≤ 8) }
    requires judge { J.policies judge.now ≡ (setting_of start.policies start.script).policies }
    ensures run { IfOk result (λ r. IsSomeRun start.entry.policies start.entry.script r) }
{
    if script_of(&start).targets.len() == 0 {
        return run_no_target(alloc, judge, start);
    }
    run_targets(rt, alloc, judge, start, workers, gate)
}
