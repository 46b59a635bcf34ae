// The world before the first step.
ghost use Rattle.std.specs.Prelude.{◌≡◌, length, true, IfOk};
ghost use Rattle.sb_core.specs.Worlds.{first_words, first_workers, start_threads};

use crate::threads::TargetThreads;
use crate::words::TargetWords;
use sb_actor::WorkerState;
use sb_base::NoMemory;
use sb_statements::{SoundScript, TargetScript, clean_table};
use std::alloc::Global;

/// The channel words of each target: all channels are free.
///
/// # Errors
/// `NoMemory` if there was none for the words.
pub(crate) fn first_words(
    alloc: Global,
    targets: &[TargetScript],
) -> Result<Vec<TargetWords>, NoMemory>
    ensures { IfOk result (λ words. words.items ≡ first_words targets.now) }
{
    let mut words = Vec::new(alloc);
    for target in targets {
        words.push(TargetWords::free(alloc, target.channels)?)?;
    }
    Ok(words)
}

/// The worker of each target: it looks at channel 0.
///
/// # Errors
/// `NoMemory` if there was none for the workers.
#[tactic(auto, using(crate::proofs::Starting::workers_more))]
pub(crate) fn first_workers(
    alloc: Global,
    script: &SoundScript,
) -> Result<Vec<WorkerState>, NoMemory>
    ensures { IfOk result (λ workers. workers.items ≡ first_workers script.now.targets (length script.now.targets)) }
{
    let mut workers = Vec::new(alloc);
    for target in 0..script.target_count() {
        workers.push(WorkerState::new(target, script.channel_count(target)))?;
    }
    Ok(workers)
}

/// The threads of each target at their first statements.
///
/// # Errors
/// `NoMemory` if there was none for the threads and their results.
#[tactic(auto, using(crate::proofs::Starting::threads_more))]
pub(crate) fn first_threads(
    alloc: Global,
    script: &SoundScript,
) -> Result<Vec<TargetThreads>, NoMemory>
    ensures { IfOk result (λ threads. threads.items ≡ start_threads script.now (length script.now.targets)) }
{
    let table = clean_table(script);
    let mut threads = Vec::new(alloc);
    for target in 0..script.target_count() {
        threads.push(TargetThreads::new(alloc, script, &table, target)?)?;
    }
    Ok(threads)
}
