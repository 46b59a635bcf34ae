// The drain: the workers serve what is still ready, while no thread makes a step.
ghost use Rattle.std.specs.Prelude.{◌≡◌, ◌<◌, ℕ, length, OnErr, OnOk};
ghost use Rattle.std.specs.List.{list_all};
ghost use Rattle.sb_actor.specs.WorkerTable.{is_looking};
ghost use Rattle.sb_book.specs.Histories.{JudgesBy};
ghost use Rattle.sb_core.specs.Drains.{IsBeginning, is_settled, one_pass, pass_below, drained};

use crate::worlds::World;
use sb_actor::WorkerState;
use sb_base::NoMemory;
use sb_rule::Judge;
use std::alloc::Global;

/// Enough passes for every drain, which is a law.
const MAX_PASSES: u32 = 10_000;

fn all_looking(workers: &[WorkerState]) -> bool
    ensures { result ≡ list_all (λ worker. is_looking worker.stage) workers.now }
{
    workers.iter().all(|worker| worker.looking())
}

// Whether each worker is looking, and no state word is 3.
fn is_settled(world: &World) -> bool
    ensures { result ≡ is_settled world.now }
{
    all_looking(&world.workers) && !world.shared.some_ready()
}

// One step of each worker, in target order. After an error the world is that of the steps so far.
#[tactic(auto, using(crate::proofs::Folding::pass_more))]
fn make_pass<J: Judge>(alloc: Global, judge: &J, world: &mut World) -> Result<(), NoMemory>
    requires judge { JudgesBy (J.policies judge.now) world.old.shared.book }
    ensures ok { OnOk result (world.new ≡ one_pass world.old) }
    ensures err { OnErr result ((k : ℕ) × (k < length world.old.workers) × (world.new ≡ pass_below k world.old)) }
    ensures setting { world.new.shared.book.setting ≡ world.old.shared.book.setting }
{
    for target in 0..world.worker_count() {
        world.worker_step(alloc, judge, target)?;
    }
    Ok(())
}

/// The drain of a world, whatever its script: one step of each worker in target order, again and again, until each is looking and no
/// state word is 3. After an error the world is that of a beginning of the drain.
///
/// # Errors
/// `NoMemory` if there was none for a step.
#[tactic(auto, using(crate::proofs::Folding::drained_done, crate::proofs::Folding::drained_more, crate::proofs::Beginning::passed_self))]
pub(crate) fn settle<J: Judge>(alloc: Global, judge: &J, world: &mut World) -> Result<(), NoMemory>
    requires judge { JudgesBy (J.policies judge.now) world.old.shared.book }
    ensures ok { OnOk result (world.new ≡ drained world.old) }
    ensures err { OnErr result (IsBeginning world.old world.new) }
    ensures setting { world.new.shared.book.setting ≡ world.old.shared.book.setting }
{
    let mut left = MAX_PASSES;
    while left > 0 && !is_settled(world) {
        make_pass(alloc, judge, world)?;
        left -= 1;
    }
    Ok(())
}
