// Laws of traces. None of these functions does anything: each contract is a law.
ghost use Rattle.sb_trace.specs.Folding.{LinesHoldSteps};
ghost use Rattle.sb_trace.specs.Steps.{OrdersAreRuns};

use sb_core::{drains_settle, steps_are_folds, worlds_keep};

/// The order of the steps of a run, without those of finished threads, is an order of actors that are there. Written as a schedule without rounds, it has the same
/// run: the same report, with the same thread unfinished.
pub fn orders_are_runs()
    ensures { OrdersAreRuns }
{
    worlds_keep();
    steps_are_folds();
    drains_settle();
}

/// The steps of the lines of a trace are the steps of which they were made, each with its number and its actor: none is left out, and none is told twice.
pub fn lines_hold_steps()
    ensures { LinesHoldSteps }
{}
