// The step of a worker.
ghost use Rattle.std.specs.Prelude.{◌≡◌, ◌<◌, length, slice_index, OnOk, OnErr};
ghost use Rattle.sb_actor.specs.WorkerTable.{worker_plan};
ghost use Rattle.sb_actor.specs.declared.acts.Act.TheVariants.{Answer};
ghost use Rattle.sb_book.specs.Histories.{JudgesBy};
ghost use Rattle.sb_core.specs.Shared.{IsActThere, worker_step_of};

use crate::shared::Shared;
use sb_actor::{Act, WorkerState};
use sb_base::NoMemory;
use sb_rule::Judge;
use std::alloc::Global;

// The step of a worker that is at Answer.
#[tactic(auto, using(crate::proofs::Answering::has_copy, crate::proofs::Answering::answers))]
fn answer_step<J: Judge>(
    alloc: Global,
    judge: &J,
    shared: &mut Shared,
    target: u32,
    worker: &mut WorkerState,
) -> Result<(), NoMemory>
    requires judge { JudgesBy (J.policies judge.now) shared.old.book }
    requires policy { target < length shared.old.book.setting.policies }
    requires channel { worker.old.channel < slice_index shared.old.book.setting.channels target }
    requires plan { worker_plan worker.old ≡ Answer }
    ensures ok { OnOk result (worker_step_of shared.old target worker.old ≡ record { shared = shared.new; worker = worker.new }) }
    ensures shared { OnErr result (shared.new ≡ shared.old) }
    ensures worker { OnErr result (worker.new ≡ worker.old) }
{
    let reply = shared.answer_copy(alloc, judge, target, worker)?;
    worker.accept_reply(&reply);
    Ok(())
}

/// One step of the worker of a target. After an error nothing is changed.
///
/// # Errors
/// `NoMemory` if the worker is at Answer and there was none for the call's strings, for the entry, or for what the call makes.
#[inline(always)]
#[tactic(auto, using(crate::proofs::Answering::no_answer))]
pub(crate) fn make_step<J: Judge>(
    alloc: Global,
    judge: &J,
    shared: &mut Shared,
    target: u32,
    worker: &mut WorkerState,
) -> Result<(), NoMemory>
    requires judge { JudgesBy (J.policies judge.now) shared.old.book }
    requires there { IsActThere shared.old.words (worker_plan worker.old) }
    requires policy { target < length shared.old.book.setting.policies }
    requires channel { worker.old.channel < slice_index shared.old.book.setting.channels target }
    ensures ok { OnOk result (worker_step_of shared.old target worker.old ≡ record { shared = shared.new; worker = worker.new }) }
    ensures shared { OnErr result (shared.new ≡ shared.old) }
    ensures worker { OnErr result (worker.new ≡ worker.old) }
    ensures cause { OnErr result (worker_plan worker.old ≡ Answer) }
{
    let observed = match worker.plan() {
        Act::Take => shared.take_turn(target),
        Act::Give => shared.give_turn(),
        Act::Answer => return answer_step(alloc, judge, shared, target, worker),
        Act::Load { .. } | Act::Store { .. } | Act::Exchange { .. } | Act::Idle => {
            worker.step(shared);
            return Ok(());
        }
    };
    worker.after(observed);
    Ok(())
}
