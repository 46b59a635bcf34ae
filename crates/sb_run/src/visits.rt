// A worker serves its target for a while.
ghost use Rattle.std.specs.Prelude.{◌≡◌, true, OnErr, OnOk};
ghost use Rattle.sb_actor.specs.WorkerTable.{is_looking, worker_plan};
ghost use Rattle.sb_actor.specs.declared.acts.Act.TheVariants.{Take};
ghost use Rattle.sb_shared.specs.Closing.{IsWorkerOf};
ghost use Rattle.sb_shared.specs.Events.{stop_in};
ghost use Rattle.sb_shared.specs.Seats.{IsSameWorker};

use crate::contexts::RunContext;
use crate::pauses::rest;
use sb_actor::Act;
use sb_base::NoMemory;
use sb_outside::Gate;
use sb_rule::Judge;
use sb_shared::{Stop, WorkerSeat};
use std::alloc::Global;
use std::sync::Wait;

// After this many calls others may draw the seat.
const MAX_CALLS: u32 = 64;

// A try to take the turn, after the decision on the copy and the gate. If the turn is held, it looks at the stop word and rests, since it is held for a
// short time. Before it this many tries missed.
fn try_turn<J: Judge, G: Gate, R: Wait>(
    rt: &R,
    alloc: Global,
    context: &RunContext<'_, J, G>,
    seat: &mut WorkerSeat,
    misses: &mut u32,
) -> Result<(), NoMemory>
    requires own { IsWorkerOf context.now.world seat.old }
    requires plan { worker_plan seat.old.state ≡ Take }
    ensures same { IsSameWorker seat.old seat.new }
{
    context.establish_kept();
    if !seat.has_decided() {
        seat.decide(alloc, context.judge)?;
        context.gate.pass(rt, seat.target(), seat.mark());
    }
    if seat.try_take(context.world) {
        return Ok(());
    }
    if let Some(Stop::OutOfMemory) = seat.stopped(context.world) {
        return Err(NoMemory);
    }
    rest(*misses);
    *misses = misses.saturating_add(1);
    Ok(())
}

// The worker's next step, by its plan.
fn make_step<J: Judge, G: Gate, R: Wait>(
    rt: &R,
    alloc: Global,
    context: &RunContext<'_, J, G>,
    seat: &mut WorkerSeat,
    misses: &mut u32,
) -> Result<(), NoMemory>
    requires own { IsWorkerOf context.now.world seat.old }
    ensures same { IsSameWorker seat.old seat.new }
{
    context.establish_kept();
    match seat.plan() {
        Act::Take => try_turn(rt, alloc, context, seat, misses),
        Act::Answer => seat.answer(alloc, context.world, context.judge),
        Act::Give => {
            seat.give_back(context.world);
            Ok(())
        }
        Act::Load { .. } | Act::Store { .. } | Act::Exchange { .. } | Act::Idle => {
            seat.step(context.world);
            Ok(())
        }
    }
}

// The same. If memory ran out, the stop word says so.
fn advance<J: Judge, G: Gate, R: Wait>(
    rt: &R,
    alloc: Global,
    context: &RunContext<'_, J, G>,
    seat: &mut WorkerSeat,
    misses: &mut u32,
) -> Result<(), NoMemory>
    requires own { IsWorkerOf context.now.world seat.old }
    ensures same { IsSameWorker seat.old seat.new }
    ensures failed { OnErr result (stop_in seat.new.history ≡ 2) }
{
    let made = make_step(rt, alloc, context, seat, misses);
    if made.is_err() {
        seat.fail(context.world);
    }
    made
}

/// Makes the steps of a worker until it has looked at each channel in turn and found none ready, or has served `MAX_CALLS` calls. True if it served a call.
///
/// # Errors
/// `NoMemory` if there is none for a decision or an answer, or another worker ran out of memory while this one tried to take the turn. Then the stop word says
/// so, and the worker is where it was, with the turn if it had it.
pub(crate) fn visit<J: Judge, G: Gate, R: Wait>(
    rt: &R,
    alloc: Global,
    context: &RunContext<'_, J, G>,
    seat: &mut WorkerSeat,
) -> Result<bool, NoMemory>
    requires own { IsWorkerOf context.now.world seat.old }
    requires looking { is_looking seat.old.state.stage ≡ true }
    ensures same { IsSameWorker seat.old seat.new }
    ensures looking { OnOk result (is_looking seat.new.state.stage ≡ true) }
    ensures failed { OnErr result (stop_in seat.new.history ≡ 2) }
{
    let channels = seat.channels();
    let mut left = channels;
    let mut calls = 0;
    let mut misses = 0u32;
    for _ in rt.forever() {
        let looked = seat.is_looking();
        advance(rt, alloc, context, seat, &mut misses)?;
        if seat.is_looking() {
            if looked {
                left = left.saturating_sub(1);
            } else {
                left = channels;
                calls += 1;
            }
            if left == 0 || calls >= MAX_CALLS {
                break;
            }
        }
    }
    Ok(calls > 0)
}
