// The stop word, as each seat sees it.
ghost use Rattle.std.specs.Prelude.{◌≡◌};
ghost use Rattle.sb_tables.specs.Players.{AreOnTable, AreThreadsOnTable};

use crate::openings::{last_worker, open};
use crate::players::Players;
use sb_book::ReadyScript;
use sb_rows::RowFault;
use sb_shared::{Keeper, SharedWorld, Stop, ThreadSeat, WorkerSeat};
use std::alloc::Global;

fn word_of(stop: Option<Stop>) -> &'static str {
    match stop {
        None => "none",
        Some(Stop::Finished) => "finished",
        Some(Stop::OutOfMemory) => "out-of-memory",
    }
}

// The stops of a row, one after another: `finished` and `failed` are set by the keeper's seat, `worker` is memory that a worker ran out of.
fn set_stops(
    world: &SharedWorld,
    keeper: &mut Keeper,
    worker: &mut WorkerSeat,
    stops: &str,
) -> Result<(), RowFault>
    requires keeper { keeper.old.table ≡ world.now.table }
    requires worker { worker.old.table ≡ world.now.table }
    ensures keeper { keeper.new.table ≡ world.now.table }
    ensures worker { worker.new.table ≡ world.now.table }
{
    for stop in stops.split_whitespace() {
        match stop {
            "finished" => keeper.stop(world),
            "failed" => keeper.fail(world),
            "worker" => worker.fail(world),
            _ => return Err(RowFault::BadWords),
        }
    }
    Ok(())
}

// Appends what the seats of the workers see.
fn put_workers(
    out: &mut String,
    world: &SharedWorld,
    workers: Vec<WorkerSeat>,
) -> Result<(), RowFault>
    requires { AreOnTable world.now workers.items }
{
    for worker in workers {
        let mut worker = worker;
        let seen = word_of(worker.stopped(world));
        write!(out, " worker {seen}")?;
    }
    Ok(())
}

// Appends what the seats of the threads see.
fn put_threads(
    out: &mut String,
    world: &SharedWorld,
    threads: Vec<ThreadSeat>,
) -> Result<(), RowFault>
    requires { AreThreadsOnTable world.now threads.items }
{
    for thread in threads {
        let mut thread = thread;
        let seen = word_of(thread.stopped(world));
        write!(out, " thread {seen}")?;
    }
    Ok(())
}

/// The stop word of a run before its first step, after the given stops, as the seat of the keeper, of each worker and of each thread sees it.
pub fn told_stops(alloc: Global, inputs: &ReadyScript, stops: &str) -> Result<String, RowFault> {
    let (world, mut keeper, players) = open(alloc, inputs)?;
    let Players {
        mut workers,
        threads,
    } = players;
    let Some(mut worker) = last_worker(&world, &mut workers) else {
        return Err(RowFault::NotInRange);
    };
    set_stops(&world, &mut keeper, &mut worker, stops)?;
    let seen = word_of(keeper.stopped(&world));
    let mut out = format!(in alloc; "keeper {seen}")?;
    put_workers(&mut out, &world, workers)?;
    let seen = word_of(worker.stopped(&world));
    write!(out, " last {seen}")?;
    put_threads(&mut out, &world, threads)?;
    Ok(out)
}
