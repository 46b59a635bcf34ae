// Each actor of a run makes its steps by a thread of its own.
ghost use Rattle.std.specs.Prelude.{◌≡◌};
ghost use Rattle.sb_shared.specs.Closing.{AreThreads, IsKeeper, IsThreadSeat, IsWorkerOf};
ghost use Rattle.sb_shared.specs.Origins.{setting_in};
ghost use Rattle.sb_shared.specs.Seats.{IsSameThread, IsSameWorker};
ghost use Rattle.sb_tables.specs.Players.{AreHere, ArePlayers};

use crate::closings::{Left, left_by};
use crate::openings::open;
use crate::players::{Players, serve, walk};
use crate::plays::core_report;
use sb_book::{ReadyScript, Report};
use sb_compile::Programs;
use sb_rows::RowFault;
use sb_rule::Judge;
use sb_scripttext::MAX_ROUNDS;
use sb_shared::{Keeper, SharedWorld, Stop, ThreadSeat, WorkerSeat};
use sb_statements::{Schedule, SoundScript, Steps};
use std::alloc::Global;
use std::sync::atomic::{AtomicU64, Ordering};
use std::thread;
use std::thread::Threads;

// As many steps as an actor makes at most.
const MAX_STEPS: u64 = 1_000_000_000_000;
// After as many steps others may go on. With fewer, threads that share a processor spend much of their time in yields.
const TURN: u64 = 8192;

// The steps of a thread to its end, or until memory ran out. Adds their number to `steps`.
fn finish(world: &SharedWorld, script: &SoundScript, seat: &mut ThreadSeat, steps: &AtomicU64)
    requires seat { IsThreadSeat world.now seat.old }
    requires script { world.now.key.script.value ≡ script.now }
    ensures { IsSameThread seat.old seat.new }
{
    let mut made: u64 = 0;
    for step in 0..MAX_STEPS {
        if seat.is_finished() {
            break;
        }
        walk(world, script, seat);
        made = made.saturating_add(1);
        if step % TURN == 0 && seat.is_waiting() {
            if seat.stopped(world).is_some() {
                break;
            }
            thread::yield_now();
        }
    }
    steps.fetch_add(made, Ordering::SeqCst);
}

// The steps of a worker, at most the given number, until all threads have ended, or memory ran out.
fn attend<J: Judge>(
    alloc: Global,
    world: &SharedWorld,
    judge: &J,
    seat: &mut WorkerSeat,
    steps: u64,
)
    requires here { IsWorkerOf world.now seat.old }
    requires judge { J.policies judge.now ≡ (setting_in world.now.key).policies }
    ensures { IsSameWorker seat.old seat.new }
{
    for step in 0..steps {
        if serve(alloc, world, judge, seat).is_err() {
            seat.fail(world);
            break;
        }
        if step % TURN == 0 {
            match seat.stopped(world) {
                Some(Stop::OutOfMemory) => break,
                Some(Stop::Finished) if seat.is_looking() => break,
                _ => thread::yield_now(),
            }
        }
    }
}

// The steps of all threads, each by a thread of its own. Then the run is stopped.
fn finish_all<R: Threads + Sync>(
    rt: &R,
    world: &SharedWorld,
    script: &SoundScript,
    keeper: Keeper,
    seats: Vec<ThreadSeat>,
    steps: &AtomicU64,
) -> (Keeper, Vec<ThreadSeat>)
    requires script { world.now.key.script.value ≡ script.now }
    requires keeper { IsKeeper world.now keeper }
    requires seats { AreThreads world.now seats.items }
    ensures keeper { IsKeeper world.now result.0 }
    ensures seats { AreThreads world.now result.1.items }
{
    let (mut keeper, mut seats) = (keeper, seats);
    thread::for_each_mut(
        rt,
        seats.as_mut_slice(),
        32,
        &|_place: usize, seat: &mut ThreadSeat|
            requires { IsThreadSeat world.now seat.now × (world.now.key.script.value ≡ script.now) }
            ensures { IsSameThread seat.entry.now seat.exit.now }
        { finish(world, script, seat, steps) },
    );
    keeper.stop(world);
    (keeper, seats)
}

// The steps of all workers, each by a thread of its own, at most the given number each.
fn attend_all<R: Threads + Sync, J: Judge>(
    rt: &R,
    alloc: Global,
    world: &SharedWorld,
    judge: &J,
    workers: Vec<WorkerSeat>,
    steps: u64,
) -> Vec<WorkerSeat>
    requires workers { AreHere world.now workers.items }
    requires judge { J.policies judge.now ≡ (setting_in world.now.key).policies }
    ensures { AreHere world.now result.items }
{
    let mut workers = workers;
    thread::for_each_mut(
        rt,
        workers.as_mut_slice(),
        8,
        &|_place: usize, seat: &mut WorkerSeat|
            requires { IsWorkerOf world.now seat.now × (J.policies judge.now ≡ (setting_in world.now.key).policies) }
            ensures { IsSameWorker seat.entry.now seat.exit.now }
        { attend(alloc, world, judge, seat, steps) },
    );
    workers
}

// The steps of all threads, and meanwhile those of all workers, at most the given number each.
fn together<R: Threads + Sync, J: Judge>(
    rt: &R,
    alloc: Global,
    world: &SharedWorld,
    judge: &J,
    script: &SoundScript,
    keeper: Keeper,
    players: Players,
    most: u64,
    steps: &AtomicU64,
) -> (Keeper, Players)
    requires judge { J.policies judge.now ≡ (setting_in world.now.key).policies }
    requires script { world.now.key.script.value ≡ script.now }
    requires keeper { IsKeeper world.now keeper }
    requires players { ArePlayers world.now players }
    ensures keeper { IsKeeper world.now result.0 }
    ensures players { ArePlayers world.now result.1 }
{
    let Players { workers, threads } = players;
    let ((keeper, threads), workers) = thread::join(
        rt,
        move || -> (Keeper, Vec<ThreadSeat>)
            requires { (world.now.key.script.value ≡ script.now) × IsKeeper world.now keeper × AreThreads world.now threads.items }
            ensures { IsKeeper world.entry.now result.0 × AreThreads world.entry.now result.1.items }
        { finish_all(rt, world, script, keeper, threads, steps) },
        move || -> Vec<WorkerSeat>
            requires { AreHere world.now workers.items × (J.policies judge.now ≡ (setting_in world.now.key).policies) }
            ensures { AreHere world.entry.now result.items }
        { attend_all(rt, alloc, world, judge, workers, most) },
    );
    (keeper, Players { workers, threads })
}

// What the actors leave, each of which makes its steps by a thread of its own, a worker at most the given number.
fn left_together<R: Threads + Sync>(
    rt: &R,
    alloc: Global,
    inputs: &ReadyScript,
    most: u64,
    steps: &AtomicU64,
) -> Result<Left, RowFault> {
    let script = inputs.script();
    let judge = Programs::new(alloc, inputs.policies(), script)?;
    let (world, keeper, players) = open(alloc, inputs)?;
    let (keeper, players) = together(
        rt, alloc, &world, &judge, script, keeper, players, most, steps,
    );
    match left_by(world, keeper, players) {
        Some(left) => Ok(left),
        None => Err(RowFault::NoMemory),
    }
}

// What the core reports of the script by rounds.
fn by_rounds(alloc: Global, inputs: &ReadyScript) -> Result<Report, RowFault> {
    let schedule = Schedule {
        steps: Steps::empty(alloc),
        rounds: MAX_ROUNDS,
    };
    core_report(alloc, inputs, &schedule)
}

/// The actors of a script make their steps to the end, each by a thread of its own. Told are, with `alone`, of threads to whom no worker serves, how many
/// steps they made and whether words and results are those of the core by rounds; with `words` and `results`, of threads and workers, how many entries there
/// are and whether words and results, or results alone, are those of the core; with `paces` the number of the steps of threads.
pub fn told_threads<R: Threads + Sync>(
    rt: &R,
    alloc: Global,
    inputs: &ReadyScript,
    what: &str,
) -> Result<String, RowFault> {
    let steps = AtomicU64::new(0);
    // Workers make no steps unless calls are served.
    let most = match what {
        "words" | "results" => MAX_STEPS,
        _ => 0,
    };
    let left = left_together(rt, alloc, inputs, most, &steps)?;
    told_left(
        alloc,
        inputs,
        what,
        steps.load(Ordering::SeqCst),
        &left.report,
    )
}

// What is told of the number of the steps of threads, and of what the actors left.
fn told_left(
    alloc: Global,
    inputs: &ReadyScript,
    what: &str,
    made: u64,
    report: &Report,
) -> Result<String, RowFault> {
    if what == "paces" {
        return Ok(format!(in alloc; "steps {made}")?);
    }
    let core = by_rounds(alloc, inputs)?;
    let words = report.words == core.words;
    let results = report.results == core.results;
    let same = (words, results);
    told_beside(alloc, what, made, report.entries.len(), same)
}

// The same beside the core: with whether words and results are those of the core.
fn told_beside(
    alloc: Global,
    what: &str,
    made: u64,
    entries: usize,
    same: (bool, bool),
) -> Result<String, RowFault> {
    let (words, results) = same;
    match what {
        "alone" => Ok(format!(in alloc; "steps {made} words {words} results {results}")?),
        "words" => Ok(format!(in alloc; "entries {entries} words {words} results {results}")?),
        "results" => Ok(format!(in alloc; "entries {entries} results {results}")?),
        _ => Err(RowFault::Unknown),
    }
}
