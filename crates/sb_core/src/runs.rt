// A whole run of a script by a schedule.
ghost use Rattle.std.specs.Prelude.{◌≡◌, ◌≤◌, true, IfOk};
ghost use Rattle.std.specs.List.{list_all};
ghost use Rattle.sb_book.specs.Histories.{JudgesBy, setting_of};
ghost use Rattle.sb_book.specs.Reports.{result_count};
ghost use Rattle.sb_core.specs.Kept.{IsRunning};
ghost use Rattle.sb_statements.specs.Actors.{is_step_there};
ghost use Rattle.sb_core.specs.Reports.{report_of, results_of};
ghost use Rattle.sb_core.specs.Runs.{ended_from, ran, most_results};

use crate::lists::{results_from, words_into};
use crate::rounds::{make_rounds, make_steps};
use crate::shared::Shared;
use crate::worlds::World;
use sb_base::NoMemory;
use sb_book::{Report, Results, RunStart};
use sb_rule::Judge;
use sb_statements::{Schedule, SoundScript, sound_parts};
use std::alloc::Global;

/// What a run gives.
#[derive(Drop)]
pub struct Ran {
    /// The history, the results, the channel words and the namespace.
    pub report: Report,
    /// The first thread that used up the rounds without being finished, as target and thread, both numbered from 0.
    pub unfinished: Option<(u32, u32)>,
}

/// The report of what all share, with these results.
///
/// # Errors
/// `NoMemory` if there was none for a list of the words of targets.
pub(crate) fn report_of(alloc: Global, shared: Shared, results: Results) -> Result<Report, NoMemory>
    ensures { IfOk result (λ r. r ≡ report_of shared results) }
{
    let Shared { words, book, .. } = shared;
    let words = words_into(alloc, words)?;
    let (entries, kernel) = book.into_parts();
    Ok(Report {
        entries,
        results,
        words,
        kernel,
    })
}

// The report of a world as it is.
fn world_report(alloc: Global, world: World) -> Result<Report, NoMemory>
    ensures { IfOk result (λ r. r ≡ report_of world.shared (results_of world.threads)) }
{
    let World {
        shared,
        threads,
        ..
    } = world;
    let results = results_from(alloc, threads)?;
    report_of(alloc, shared, results)
}

// A world has as many results as its script has statements at most. It does nothing.
fn establish_few(script: &SoundScript, world: &World)
    requires running { IsRunning script.now world.now }
    ensures { result_count (results_of world.now.threads) ≤ most_results }
{
    sound_parts();
    let _script = script;
    world.establish_kept();
}

// Drains the world if every thread is finished, and reports.
#[tactic(auto, using(crate::proofs::Beginning::drained_threads))]
fn ended<J: Judge>(
    alloc: Global,
    judge: &J,
    script: &SoundScript,
    world: World,
) -> Result<Ran, NoMemory>
    requires judge { JudgesBy (J.policies judge.now) world.shared.book }
    requires running { IsRunning script.now world }
    ensures value { IfOk result (λ r. r ≡ ended_from script.now world) }
    ensures few { IfOk result (λ r. result_count r.report.results ≤ most_results) }
{
    let mut world = world;
    establish_few(script, &world);
    if let Some(thread) = world.unfinished(script) {
        return Ok(Ran {
            report: world_report(alloc, world)?,
            unfinished: Some(thread),
        });
    }
    world.drain(alloc, judge)?;
    Ok(Ran {
        report: world_report(alloc, world)?,
        unfinished: None,
    })
}

/// Runs a ready script by a schedule, from the namespace that it opens with: the steps in turn, then rounds while a thread is
/// unfinished and rounds are left, and then the drain if every thread is finished. The script has each actor of the schedule, and the
/// judge judges its targets by their policies.
///
/// # Errors
/// `NoMemory` if there was none for the run.
#[tactic(auto, unfolding(crate::specs::Kept::RunsUnder))]
pub fn run<J: Judge>(
    alloc: Global,
    judge: &J,
    start: RunStart<'_>,
    schedule: &Schedule,
) -> Result<Ran, NoMemory>
    requires there { list_all (is_step_there start.script.targets) schedule.now.steps ≡ true }
    requires judge { J.policies judge.now ≡ (setting_of start.policies start.script).policies }
    ensures value { IfOk result (λ r. r ≡ ran start.entry.policies start.entry.script schedule.now) }
    ensures few { IfOk result (λ r. result_count r.report.results ≤ most_results) }
{
    let script = start.ready().script();
    let mut world = World::start(alloc, start)?;
    make_steps(alloc, judge, script, &mut world, schedule.steps.as_slice())?;
    make_rounds(alloc, judge, script, &mut world, schedule.rounds)?;
    ended(alloc, judge, script, world)
}
