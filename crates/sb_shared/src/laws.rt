// Laws of runs by threads. None of these functions does anything: each contract is a law.
ghost use Rattle.sb_shared.specs.Laws.{Laws};
ghost use Rattle.sb_shared.specs.Runs.{ClosedRunsAreRuns};
ghost use Rattle.sb_shared.specs.Steps.{SeatsStepTheCore};

use sb_core::{ends_are_runs, plans_are_there, steps_are_folds, steps_change_little, worlds_keep};

/// A closed run in which each thread has ended and each worker is looking is a run of the script by some schedule: `finish` can be
/// called with its words, workers, book and results, and its report is that of the run by this schedule.
pub fn closed_runs_are_runs()
    ensures { ClosedRunsAreRuns }
{
    ends_are_runs();
}

/// Each step of a seat is one step of the core: it leads to the next world, and among the steps of its actor it is one more. So a step that was not made,
/// or was made twice, is none.
pub fn seats_step_the_core()
    ensures { SeatsStepTheCore }
{
    steps_are_folds();
}

// The laws of the core on which each step of a seat rests.
#[inline(always)]
pub(crate) fn core_laws()
    ensures { Laws }
{
    worlds_keep();
    steps_are_folds();
    steps_change_little();
    plans_are_there();
}
