// Steps in turn: those of a schedule, and rounds.
ghost use Rattle.std.specs.Prelude.{◌≡◌, ◌<◌, length, replicate, slice_get, true, OnOk};
ghost use Rattle.std.specs.List.{list_all};
ghost use Rattle.sb_core.specs.Actors.{first_threads, scheduled};
ghost use Rattle.sb_statements.specs.Actors.{is_step_there, is_there, thread_count};
ghost use Rattle.sb_core.specs.Kept.{RunsUnder};
ghost use Rattle.sb_core.specs.Worlds.{step, steps, round, rounds};

use crate::worlds::World;
use sb_base::NoMemory;
use sb_rule::Judge;
use sb_statements::{Actor, SoundScript};
use std::alloc::Global;

// One step of an actor that is there.
#[inline(always)]
#[tactic(auto, unfolding(crate::specs::Kept::RunsUnder))]
fn make_step<J: Judge>(
    alloc: Global,
    judge: &J,
    script: &SoundScript,
    world: &mut World,
    actor: Actor,
) -> Result<(), NoMemory>
    requires runs { RunsUnder (J.policies judge.now) script.now world.old }
    requires there { is_there script.now.targets actor ≡ true }
    ensures ok { OnOk result (world.new ≡ step script.now world.old actor) }
    ensures runs { RunsUnder (J.policies judge.now) script.now world.new }
{
    world.step(alloc, judge, script, actor)?;
    Ok(())
}

// This many steps of one actor.
fn repeat<J: Judge>(
    alloc: Global,
    judge: &J,
    script: &SoundScript,
    world: &mut World,
    actor: Actor,
    count: u32,
) -> Result<(), NoMemory>
    requires runs { RunsUnder (J.policies judge.now) script.now world.old }
    requires there { is_there script.now.targets actor ≡ true }
    ensures ok { OnOk result (world.new ≡ steps script.now (replicate count actor) world.old) }
    ensures runs { RunsUnder (J.policies judge.now) script.now world.new }
{
    let mut left = count;
    while left > 0 {
        make_step(alloc, judge, script, world, actor)?;
        left -= 1;
    }
    Ok(())
}

/// The steps of a schedule. After an error the world is that of the steps so far.
///
/// # Errors
/// `NoMemory` if there was none for a step.
#[tactic(auto, using(crate::proofs::Folding::scheduled_more))]
pub(crate) fn make_steps<J: Judge>(
    alloc: Global,
    judge: &J,
    script: &SoundScript,
    world: &mut World,
    entries: &[(Actor, u32)],
) -> Result<(), NoMemory>
    requires runs { RunsUnder (J.policies judge.now) script.now world.old }
    requires there { list_all (is_step_there script.now.targets) entries.now ≡ true }
    ensures ok { OnOk result (world.new ≡ steps script.now (scheduled entries.now) world.old) }
    ensures runs { RunsUnder (J.policies judge.now) script.now world.new }
{
    let mut rest = entries;
    while let Some((entry, later)) = rest.split_first() {
        repeat(alloc, judge, script, world, entry.0, entry.1)?;
        rest = later;
    }
    Ok(())
}

// One step of each thread of a target, in order.
#[tactic(auto, using(crate::proofs::Folding::threads_more))]
fn make_thread_steps<J: Judge>(
    alloc: Global,
    judge: &J,
    script: &SoundScript,
    world: &mut World,
    target: u32,
) -> Result<(), NoMemory>
    requires runs { RunsUnder (J.policies judge.now) script.now world.old }
    requires there { target < length script.now.targets }
    ensures ok { OnOk result (world.new ≡ steps script.now (first_threads target (thread_count (slice_get script.now.targets target))) world.old) }
    ensures runs { RunsUnder (J.policies judge.now) script.now world.new }
{
    for thread in 0..script.thread_count(target) {
        make_step(
            alloc,
            judge,
            script,
            world,
            Actor::Thread { target, thread },
        )?;
    }
    Ok(())
}

// One step of each actor: for each target its worker, then its threads in order.
#[tactic(auto, using(crate::proofs::Folding::targets_more))]
fn make_round<J: Judge>(
    alloc: Global,
    judge: &J,
    script: &SoundScript,
    world: &mut World,
) -> Result<(), NoMemory>
    requires runs { RunsUnder (J.policies judge.now) script.now world.old }
    ensures ok { OnOk result (world.new ≡ round script.now world.old) }
    ensures runs { RunsUnder (J.policies judge.now) script.now world.new }
{
    for target in 0..script.target_count() {
        make_step(alloc, judge, script, world, Actor::Worker { target })?;
        make_thread_steps(alloc, judge, script, world, target)?;
    }
    Ok(())
}

/// At most this many rounds, while a thread is unfinished. A round is made whole before the threads are looked at again. After an error
/// the world is that of the steps so far.
///
/// # Errors
/// `NoMemory` if a step ran out of memory.
#[tactic(auto, using(crate::proofs::Judging::finished_by_stage, crate::proofs::Folding::rounds_done, crate::proofs::Folding::rounds_more), unfolding(crate::specs::Kept::RunsUnder))]
pub(crate) fn make_rounds<J: Judge>(
    alloc: Global,
    judge: &J,
    script: &SoundScript,
    world: &mut World,
    count: u32,
) -> Result<(), NoMemory>
    requires runs { RunsUnder (J.policies judge.now) script.now world.old }
    ensures ok { OnOk result (world.new ≡ rounds count script.now world.old) }
    ensures runs { RunsUnder (J.policies judge.now) script.now world.new }
{
    let mut left = count;
    while left > 0 && !world.all_over() {
        make_round(alloc, judge, script, world)?;
        left -= 1;
    }
    Ok(())
}
