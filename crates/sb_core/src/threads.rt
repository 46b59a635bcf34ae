// The threads of a target, each with the results of its statements that ended.
ghost use Rattle.std.specs.Prelude.{◌≡◌, ◌<◌, length, map, slice_get, slice_index_or, slice_set, IfOk};
ghost use Rattle.sb_actor.specs.ThreadTable.{thread_plan};
ghost use Rattle.sb_statements.specs.CleanTables.{IsCleanTable};
ghost use Rattle.sb_statements.specs.Actors.{thread_count};
ghost use Rattle.sb_core.specs.Shared.{IsActThere};
ghost use Rattle.sb_core.specs.Threads.{HasRoom, are_over, no_run, thread_step, unfinished_of};
ghost use Rattle.sb_core.specs.Worlds.{first_run, first_runs};

use crate::shared::Shared;
use sb_actor::ThreadState;
use sb_base::NoMemory;
use sb_book::{TargetResults, ThreadResults};
use sb_statements::{CleanTable, MAX_STATEMENTS, SoundScript, StmtResult};
use std::alloc::Global;
use std::marker::Model;

/// A thread, and the results of its statements that ended, by place.
#[derive(Drop)]
pub(crate) struct ThreadRun {
    state: ThreadState,
    results: Vec<StmtResult>,
}

impl Model for ThreadRun {
    ghost use Rattle.std.specs.Prelude.{◌≤◌, vec_capacity};
    ghost use Rattle.sb_statements.specs.Limits.{most_statements};
    ghost use Rattle.sb_core.specs.Threads.{RunAt};

    ghost Value = { RunAt };

    ghost view = { λ x. record { thread = x.state; results = x.results.items } };

    ghost invariant = { λ x. most_statements ≤ vec_capacity x.results };
}

impl ThreadRun {
    /// A thread before its first step, with room for the results of as many statements as a thread may have.
    ///
    /// # Errors
    /// `NoMemory` if there was none for the results.
    pub(crate) fn new(
        alloc: Global,
        script: &SoundScript,
        table: &CleanTable,
        target: u32,
        thread: u32,
    ) -> Result<ThreadRun, NoMemory>
        requires table { IsCleanTable script.now table.now }
        requires there { target < length script.now.targets }
        ensures { IfOk result (λ x. x ≡ first_run script.now target thread) }
    {
        Ok(ThreadRun {
            state: ThreadState::with_table(script, table, target, thread),
            results: Vec::with_capacity(alloc, MAX_STATEMENTS)?,
        })
    }

    /// One step. Does not allocate.
    #[inline(always)]
    #[tactic(auto, using(crate::proofs::Answering::room_in))]
    pub(crate) fn step(&mut self, script: &SoundScript, shared: &mut Shared)
        requires there { IsActThere shared.old.words (thread_plan script.now self.old.thread) }
        requires room { HasRoom script.now shared.old self.old }
        ensures run { self.new ≡ (thread_step script.now shared.old self.old).run }
        ensures shared { shared.new ≡ (thread_step script.now shared.old self.old).shared }
    {
        self.state.step(script, shared, &mut self.results);
    }

    /// Where the thread is.
    pub(crate) fn state(&self) -> &ThreadState
        ensures { result.now ≡ self.now.thread }
    {
        &self.state
    }

    /// The results. Does not allocate.
    pub(crate) fn into_results(self) -> ThreadResults
        ensures { result ≡ self.results }
    {
        ThreadResults::new(self.results)
    }
}

/// The threads of a target, numbered from 0. Contracts see them as a list.
#[derive(Drop)]
pub(crate) struct TargetThreads {
    runs: Vec<ThreadRun>,
}

impl Model for TargetThreads {
    ghost use Rattle.std.specs.Prelude.{List};
    ghost use Rattle.sb_core.specs.Threads.{RunAt};

    ghost Value = { List RunAt };

    ghost view = { λ t. t.runs.items };
}

impl TargetThreads {
    /// The threads of a target before their first step.
    ///
    /// # Errors
    /// `NoMemory` if there was none for the threads and their results.
    #[tactic(auto, using(crate::proofs::Starting::runs_more))]
    pub(crate) fn new(
        alloc: Global,
        script: &SoundScript,
        table: &CleanTable,
        target: u32,
    ) -> Result<TargetThreads, NoMemory>
        requires table { IsCleanTable script.now table.now }
        requires there { target < length script.now.targets }
        ensures { IfOk result (λ t. t ≡ first_runs script.now target (thread_count (slice_get script.now.targets target))) }
    {
        let mut runs = Vec::new(alloc);
        for thread in 0..script.thread_count(target) {
            runs.push(ThreadRun::new(alloc, script, table, target, thread)?)?;
        }
        Ok(TargetThreads { runs })
    }

    /// One step of a thread that is there. Does not allocate.
    #[inline(always)]
    #[tactic(auto, using(crate::proofs::Sets::at_place))]
    pub(crate) fn step(&mut self, script: &SoundScript, thread: u32, shared: &mut Shared)
        requires thread { thread < length self.old }
        requires there { IsActThere shared.old.words (thread_plan script.now (slice_index_or self.old thread no_run).thread) }
        requires room { HasRoom script.now shared.old (slice_index_or self.old thread no_run) }
        ensures runs { self.new ≡ slice_set self.old thread (thread_step script.now shared.old (slice_index_or self.old thread no_run)).run }
        ensures shared { shared.new ≡ (thread_step script.now shared.old (slice_index_or self.old thread no_run)).shared }
    {
        self.runs[thread as usize].step(script, shared);
    }

    /// Whether each thread is after its last statement.
    pub(crate) fn are_over(&self) -> bool
        ensures { result ≡ are_over self.now }
    {
        self.runs.iter().all(|run| run.state.is_over())
    }

    /// The first thread with a statement that has not ended, as target and thread.
    pub(crate) fn unfinished(&self, script: &SoundScript) -> Option<(u32, u32)>
        ensures { result ≡ unfinished_of script.now self.now }
    {
        let mut rest = self.runs.as_slice();
        while let Some((run, later)) = rest.split_first() {
            let state = run.state();
            if !state.finished(script) {
                return Some((state.target(), state.thread()));
            }
            rest = later;
        }
        None
    }

    /// The results of the threads.
    ///
    /// # Errors
    /// `NoMemory` if there was none for the list.
    pub(crate) fn into_results(self, alloc: Global) -> Result<TargetResults, NoMemory>
        ensures { IfOk result (λ r. r ≡ map (λ x. x.results) self) }
    {
        let TargetThreads { runs } = self;
        let mut results = Vec::new(alloc);
        for run in runs {
            results.push(run.into_results())?;
        }
        Ok(TargetResults::new(results))
    }
}
