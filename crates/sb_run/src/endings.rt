// The end of a run: the pool and the shared world are closed, and the report is made.
ghost use Rattle.std.specs.Prelude.{◌≡◌, map, IfOk, All};
ghost use Rattle.sb_core.specs.Runs.{IsSomeRun};
ghost use Rattle.sb_run.specs.Endings.{CanEnd, HasClosed};
ghost use Rattle.sb_run.specs.Openings.{worker_homes};
ghost use Rattle.sb_shared.specs.Closing.{AreFinished, AreThreads, IsKeeper};
ghost use Rattle.sb_shared.specs.Origins.{setting_in};
ghost use Rattle.sb_run.specs.Works.{IsWork, home_of};

use crate::pooling::close_pool;
use crate::works::{Server, Work};
use sb_base::NoMemory;
use sb_book::Report;
use sb_core::finish;
use sb_pool::Pool;
use sb_rule::Judge;
use sb_shared::{ClosedRun, Keeper, SharedWorld, ThreadSeat, WorkerSeat, closed_runs_are_runs};
use sb_statements::SoundScript;
use std::alloc::Global;
use std::sync::Wait;

// The seats of these works.
fn seats_of(alloc: Global, works: Vec<Work>) -> Result<Vec<WorkerSeat>, NoMemory>
    ensures seats { IfOk result (λ seats. seats.items ≡ works.items) }
    ensures kept { IfOk result (λ seats. All IsWork seats.items) }
{
    let mut seats = Vec::with_capacity(alloc, works.len())?;
    for work in works {
        seats.push(work.into_seat())?;
    }
    Ok(seats)
}

// What the run leaves, once all seats came back and each thread has ended.
fn close_run(
    alloc: Global,
    world: SharedWorld,
    keeper: Keeper,
    threads: Vec<ThreadSeat>,
    works: Vec<Work>,
) -> Result<ClosedRun, NoMemory>
    requires keeper { IsKeeper world keeper }
    requires threads { AreThreads world threads.items }
    requires finished { AreFinished world.key threads.items }
    requires homes { map home_of works.items ≡ worker_homes world }
    ensures { IfOk result (λ run. HasClosed world.key run) }
{
    closed_runs_are_runs();
    world.establish_ready();
    let seats = seats_of(alloc, works)?;
    Ok(world.close(keeper, seats, threads))
}

/// The report of a run whose threads have all ended: pool and world are closed, and the workers serve what is still ready.
///
/// # Errors
/// `NoMemory` if there is none for the list of seats, for what is still to be served, or for the report.
pub(crate) fn end_run<R: Wait, J: Judge>(
    rt: &R,
    alloc: Global,
    judge: &J,
    script: &SoundScript,
    world: SharedWorld,
    keeper: Keeper,
    threads: Vec<ThreadSeat>,
    pool: Pool<Work>,
    servers: Vec<Server>,
    last: Server,
) -> Result<Report, NoMemory>
    requires ended { CanEnd (record { world = world; keeper = keeper; threads = threads.items; pool = pool; servers = servers.items; last = last }) }
    requires script { script.now ≡ world.key.script.value }
    requires judge { J.policies judge.now ≡ (setting_in world.key).policies }
    ensures run { IfOk result (λ r. IsSomeRun world.key.policies.value.list world.key.script.value r) }
{
    let works = close_pool(rt, pool, last, servers);
    let closed = close_run(alloc, world, keeper, threads, works)?;
    let ClosedRun {
        words,
        workers,
        book,
        results,
    } = closed;
    finish(alloc, judge, script, words, workers, book, results)
}
