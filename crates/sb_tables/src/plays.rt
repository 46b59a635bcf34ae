// Steps of the seats of one shared world, beside the same steps of the core.
ghost use Rattle.std.specs.Prelude.{◌≡◌, ◌<◌, ◌^◌, true, IfOk, OnOk};
ghost use Rattle.sb_book.specs.Reports.{result_count};
ghost use Rattle.std.specs.List.{list_all};
ghost use Rattle.sb_shared.specs.Origins.{setting_in};
ghost use Rattle.sb_statements.specs.Actors.{is_step_there};
ghost use Rattle.sb_tables.specs.Players.{ArePlayers};

use crate::closings::{Left, left_by};
use crate::inputs::schedule_of;
use crate::openings::{last_worker, open};
use crate::players::{Players, play};
use crate::shows::{put_workers, shown};
use sb_book::{ReadyScript, Report};
use sb_compile::Programs;
use sb_core::run;
use sb_rows::RowFault;
use sb_rule::Judge;
use sb_shared::{SharedWorld, WorkerSeat};
use sb_statements::{Actor, Schedule, Script, SoundScript};
use std::alloc::Global;

// The steps of a schedule.
fn play_all<J: Judge>(
    alloc: Global,
    world: &SharedWorld,
    judge: &J,
    script: &SoundScript,
    players: &mut Players,
    steps: &[(Actor, u32)],
) -> Result<(), RowFault>
    requires judge { J.policies judge.now ≡ (setting_in world.now.key).policies }
    requires script { world.now.key.script.value ≡ script.now }
    requires players { ArePlayers world.now players.old }
    ensures { OnOk result (ArePlayers world.now players.new) }
{
    for step in steps {
        for _time in 0..step.1 {
            play(alloc, world, judge, script, players, step.0)?;
        }
    }
    Ok(())
}

// What the steps of the seats leave. None if a worker has the turn.
fn played(
    alloc: Global,
    inputs: &ReadyScript,
    steps: &[(Actor, u32)],
) -> Result<Option<Left>, RowFault> {
    let judge = Programs::new(alloc, inputs.policies(), inputs.script())?;
    let (world, keeper, mut players) = open(alloc, inputs)?;
    play_all(alloc, &world, &judge, inputs.script(), &mut players, steps)?;
    Ok(left_by(world, keeper, players))
}

/// What the core reports of a script by a schedule of its actors.
pub fn core_report(
    alloc: Global,
    inputs: &ReadyScript,
    schedule: &Schedule,
) -> Result<Report, RowFault>
    requires { list_all (is_step_there inputs.now.script.targets) schedule.now.steps ≡ true }
    ensures { IfOk result (λ report. result_count report.results < 2 ^ 62) }
{
    let judge = Programs::new(alloc, inputs.policies(), inputs.script())?;
    let ran = run(alloc, &judge, inputs.start(alloc)?, schedule)?;
    Ok(ran.report)
}

/// The given steps of the seats of one shared world, and what the core says of them. Shown are the words that changed, the entries and the results so far,
/// where the workers are, and whether words, entries and results are those of the core.
pub fn told_steps(alloc: Global, inputs: &ReadyScript, steps: &str) -> Result<String, RowFault> {
    let script = inputs.script();
    let schedule = schedule_of(alloc, steps, script)?;
    let core = core_report(alloc, inputs, &schedule)?;
    match played(alloc, inputs, schedule.steps.as_slice())? {
        Some(left) => told_left(alloc, script, &left, &core),
        None => Ok(String::from_str(alloc, "a worker has the turn")?),
    }
}

// What the seats left beside what the core reports.
fn told_left(
    alloc: Global,
    script: &Script,
    left: &Left,
    core: &Report,
) -> Result<String, RowFault> {
    let core = shown(alloc, script, core)?;
    let mut out = shown(alloc, script, &left.report)?;
    let same = out.as_str() == core.as_str();
    put_workers(&mut out, left.workers.as_slice())?;
    write!(out, "  as in the core {same}")?;
    Ok(out)
}

/// The given number of steps of the last worker, while nobody else makes any. Told is whether the worker is looking at the end.
pub fn told_looks(alloc: Global, inputs: &ReadyScript, steps: u64) -> Result<String, RowFault> {
    let (world, _, players) = open(alloc, inputs)?;
    let mut workers = players.workers;
    let Some(mut seat) = last_worker(&world, &mut workers) else {
        return Err(RowFault::NotInRange);
    };
    let looking = is_looking_after(&world, &mut seat, steps);
    Ok(format!(in alloc; "looking {looking}")?)
}

// Whether a worker is looking after the given number of steps.
fn is_looking_after(world: &SharedWorld, seat: &mut WorkerSeat, steps: u64) -> bool
    requires { seat.old.table ≡ world.now.table }
{
    for _step in 0..steps {
        seat.step(world);
    }
    seat.is_looking()
}
