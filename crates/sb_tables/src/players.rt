// The actors of a run on the seats of one shared world, one step at a time.
ghost use Rattle.std.specs.Prelude.{◌≡◌, OnOk};
ghost use Rattle.sb_shared.specs.Origins.{setting_in};
ghost use Rattle.sb_shared.specs.Closing.{IsThreadSeat, IsWorkerOf};
ghost use Rattle.sb_shared.specs.Seats.{IsSameThread, IsSameWorker};
ghost use Rattle.sb_tables.specs.Players.{ArePlayers};

use sb_actor::Act;
use sb_base::NoMemory;
use sb_rows::RowFault;
use sb_rule::Judge;
use sb_shared::{SharedWorld, ThreadSeat, WorkerSeat};
use sb_statements::{Actor, SoundScript};
use std::alloc::Global;

/// The seats of all actors.
#[derive(Drop)]
pub struct Players {
    /// Those of the workers, by target.
    pub workers: Vec<WorkerSeat>,
    /// Those of the threads, by target and then by number.
    pub threads: Vec<ThreadSeat>,
}

/// One step of a worker.
pub fn serve<J: Judge>(
    alloc: Global,
    world: &SharedWorld,
    judge: &J,
    seat: &mut WorkerSeat,
) -> Result<(), NoMemory>
    requires here { IsWorkerOf world.now seat.old }
    requires judge { J.policies judge.now ≡ (setting_in world.now.key).policies }
    ensures { IsSameWorker seat.old seat.new }
{
    match seat.plan() {
        Act::Take => {
            seat.try_take(world);
        }
        Act::Answer => seat.answer(alloc, world, judge)?,
        Act::Give => seat.give_back(world),
        Act::Load { .. } | Act::Store { .. } | Act::Exchange { .. } | Act::Idle => seat.step(world),
    }
    Ok(())
}

/// One step of a thread.
pub fn walk(world: &SharedWorld, script: &SoundScript, seat: &mut ThreadSeat)
    requires here { IsThreadSeat world.now seat.old }
    requires script { world.now.key.script.value ≡ script.now }
    ensures { IsSameThread seat.old seat.new }
{
    seat.step(world, script);
}

/// One step of an actor.
pub fn play<J: Judge>(
    alloc: Global,
    world: &SharedWorld,
    judge: &J,
    script: &SoundScript,
    players: &mut Players,
    actor: Actor,
) -> Result<(), RowFault>
    requires judge { J.policies judge.now ≡ (setting_in world.now.key).policies }
    requires script { world.now.key.script.value ≡ script.now }
    requires players { ArePlayers world.now players.old }
    ensures { OnOk result (ArePlayers world.now players.new) }
{
    match actor {
        Actor::Worker { target } => {
            let at = target as usize;
            if at >= players.workers.len() {
                return Err(RowFault::NotInRange);
            }
            serve(alloc, world, judge, &mut players.workers[at])?;
        }
        Actor::Thread { target, thread } => {
            let at = place_of(&players.threads, target, thread);
            if at >= players.threads.len() {
                return Err(RowFault::NotInRange);
            }
            walk(world, script, &mut players.threads[at]);
        }
    }
    Ok(())
}

// Where the seat of a thread is, or after the last one if there is none.
fn place_of(seats: &[ThreadSeat], target: u32, thread: u32) -> usize {
    let mut place: usize = 0;
    for seat in seats {
        if seat.target() == target && seat.thread() == thread {
            return place;
        }
        place = place.saturating_add(1);
    }
    place
}
