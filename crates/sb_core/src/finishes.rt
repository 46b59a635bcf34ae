// The end of a run by threads.
ghost use Rattle.std.specs.Prelude.{◌≡◌, IfOk};
ghost use Rattle.sb_book.specs.Histories.{JudgesBy};
ghost use Rattle.sb_core.specs.Runs.{CanFinish, finished, world_of};

use crate::drains::settle;
use crate::lists::words_from;
use crate::runs::report_of;
use crate::shared::Shared;
use crate::worlds::World;
use sb_actor::WorkerState;
use sb_base::NoMemory;
use sb_book::{AllWords, Book, Report, Results};
use sb_rule::Judge;
use sb_statements::{SoundScript, sound_parts};
use std::alloc::Global;

// The world of these parts, in which no thread is left and nobody has the turn.
#[tactic(auto, using(crate::proofs::Ending::finishing_world))]
fn world_of(
    alloc: Global,
    script: &SoundScript,
    words: AllWords,
    workers: Vec<WorkerState>,
    book: Book,
    results: &Results,
) -> Result<World, NoMemory>
    requires { CanFinish script.now words workers.items book results.now }
    ensures { IfOk result (λ w. w ≡ world_of words workers.items book) }
{
    sound_parts();
    script.establish_sound();
    let _results = results;
    let shared = Shared {
        words: words_from(alloc, words)?,
        turn: None,
        book,
    };
    Ok(World {
        shared,
        workers,
        threads: Vec::new(alloc),
    })
}

/// The report of a run by threads, once each of them has ended: the workers serve what is still ready. The words are 65 for each
/// channel of each target; there is one looking worker for each target, in target order, with its number of channels; one result for
/// each statement; and the book is that of this script. The judge judges its targets by their policies.
/// If steps of the script's actors led to these parts, the report is that of a run by a schedule (`ends_are_runs`).
///
/// # Errors
/// `NoMemory` if there was none for a step, or for the report.
pub fn finish<J: Judge>(
    alloc: Global,
    judge: &J,
    script: &SoundScript,
    words: AllWords,
    workers: Vec<WorkerState>,
    book: Book,
    results: Results,
) -> Result<Report, NoMemory>
    requires parts { CanFinish script.now words workers.items book results }
    requires judge { JudgesBy (J.policies judge.now) book }
    ensures { IfOk result (λ r. r ≡ finished words workers.items book results) }
{
    let mut world = world_of(alloc, script, words, workers, book, &results)?;
    settle(alloc, judge, &mut world)?;
    let World { shared, .. } = world;
    report_of(alloc, shared, results)
}
