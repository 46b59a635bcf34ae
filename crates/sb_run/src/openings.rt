// A run before its first step.
ghost use Rattle.std.specs.Prelude.{◌≡◌, ◌<◌, ◌≤◌, ◌++◌, ◌∷◌, [], true, length, map, IfOk, All};
ghost use Rattle.sb_actor.specs.WorkerTable.{is_looking};
ghost use Rattle.sb_pool.specs.Pools.{AreNumbered, AreSeats};
ghost use Rattle.sb_run.specs.Openings.{IsOpened};
ghost use Rattle.sb_run.specs.Works.{home_of, number_of};

use crate::works::{Server, Work};
use sb_base::NoMemory;
use sb_book::RunStart;
use sb_pool::Pool;
use sb_shared::{Keeper, SharedParts, SharedWorld, ThreadSeat, WorkerSeat, script_of};
use sb_statements::SoundScript;
use std::alloc::Global;
use std::marker::Model;
use std::sync::Wait;

/// A run before its first step: the shared world, the seat that takes in all others, the seats of the threads, and the pool that deals the seats of the
/// workers, with the seats of those who serve and the one that takes these in.
#[derive(Drop)]
pub(crate) struct Opened {
    pub(crate) world: SharedWorld,
    pub(crate) keeper: Keeper,
    pub(crate) threads: Vec<ThreadSeat>,
    pub(crate) pool: Pool<Work>,
    pub(crate) servers: Vec<Server>,
    pub(crate) last: Server,
}

impl Model for Opened {
    ghost use Rattle.sb_run.specs.Openings.{OpenedAt};

    ghost Value = { OpenedAt };

    ghost view = { λ x. record { world = x.world; keeper = x.keeper; threads = x.threads.items; pool = x.pool; servers = x.servers.items; last = x.last } };
}

// The works of these seats.
fn works_of(alloc: Global, seats: Vec<WorkerSeat>) -> Result<Vec<Work>, NoMemory>
    requires { All (λ s. is_looking s.state.stage ≡ true) seats.items }
    ensures { IfOk result (λ works. works.items ≡ seats.items) }
{
    let mut works = Vec::with_capacity(alloc, seats.len())?;
    for seat in seats {
        let work = Work::of(seat);
        works.push(work)?;
    }
    Ok(works)
}

// The pool of the works, with the given number of seats and one more.
fn open_pool<R: Wait>(
    rt: &R,
    alloc: Global,
    works: Vec<Work>,
    count: u32,
) -> Result<(Pool<Work>, Vec<Server>, Server), NoMemory>
    requires works { 0 < length works.items }
    requires numbered { AreNumbered number_of works.items }
    requires few { count ≤ 8 }
    ensures size { IfOk result (λ made. made.0.size ≡ length works.items) }
    ensures count { IfOk result (λ made. length made.1.items ≡ count) }
    ensures seats { IfOk result (λ made. AreSeats made.0 (map home_of works.items) (made.1.items ++ made.2 ∷ [])) }
{
    let Ok((pool, seats)) = Pool::new(rt, alloc, works, count + 1) else {
        return Err(NoMemory);
    };
    let mut seats = seats;
    let Some(last) = seats.pop() else {
        unreachable!()
    };
    Ok((pool, seats, last))
}

// How many serve: no more than there are targets.
fn server_count(script: &SoundScript, workers: u32) -> u32
    requires some { (1 ≤ workers) × (workers ≤ 8) }
    requires targets { 0 < length script.now.targets }
    ensures some { 0 < result }
    ensures few { result ≤ 8 }
{
    script.target_count().min(workers)
}

/// A run before its first step, with at most this number of those who serve: 1 to 8.
///
/// # Errors
/// `NoMemory` if there is none for the shared world, the pool or the lists of seats.
pub(crate) fn open_run<R: Wait>(
    rt: &R,
    alloc: Global,
    start: RunStart<'_>,
    workers: u32,
) -> Result<Opened, NoMemory>
    requires workers { (1 ≤ workers) × (workers ≤ 8) }
    requires some { 0 < length start.script.targets }
    ensures { IfOk result (λ x. IsOpened start.entry.policies start.entry.script x) }
{
    let script = script_of(&start);
    let parts = SharedWorld::open(alloc, start)?;
    let SharedParts {
        world,
        keeper,
        workers: seats,
        threads,
    } = parts;
    let works = works_of(alloc, seats)?;
    let (pool, servers, last) = open_pool(rt, alloc, works, server_count(script, workers))?;
    Ok(Opened {
        world,
        keeper,
        threads,
        pool,
        servers,
        last,
    })
}
