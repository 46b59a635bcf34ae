// Laws of how a command ends, of reports, and of totals. None of these functions does anything: each contract is a law.
ghost use Rattle.sb_top.specs.Laws.{RefusalsAreMeant, StatusesAreOfCommands, WorkComesToItsEnd};
ghost use Rattle.sb_top.specs.Orders.{OrdersAreReplayed, ThreadedRunsAreReplayed};
ghost use Rattle.sb_plain.specs.Sound.{RunsAreSound};
ghost use Rattle.sb_top.specs.Sound.{ReportsAreSound};
ghost use Rattle.sb_top.specs.Totals.{TotalsAreOfVerdicts};

use sb_audit::reports_that_fit_are_audited;
use sb_block::blocks_come_back;
use sb_core::{
    entries_are_at_most_statements, no_block_is_invented, runs_are_legal, runs_are_whole, runs_fit,
    steps_are_folds,
};
use sb_local::thinned_scripts_are_sound;
use sb_ruletext::read_policies_are_well_made;
use sb_scripttext::{
    read_schedules_are_bounded, read_scripts_are_ready, written_schedules_are_read,
    written_schedules_are_short,
};
use sb_statements::sound_parts;
use sb_transcript::transcripts_are_short;

/// Over files whose contents are known, and if neither count of faults rose, each command ends as it means, if there was memory. A command that runs on threads
/// does so if it returns, by some order of steps that leaves no thread unfinished.
pub fn work_comes_to_its_end<G, S>()
    ensures { WorkComesToItsEnd G S }
{}

/// Over files whose contents are known, a status that names a file, except that it was not read, is what the command means. So it is for each command.
pub fn refusals_are_meant<G, S>()
    ensures { RefusalsAreMeant G S }
{}

/// A command does not end with Usage, and a status that names a file names one of the command, by its place.
pub fn statuses_are_of_commands<G, S>()
    ensures { StatusesAreOfCommands G S }
{}

/// Each run of a script whose strings are made of units, by whatever schedule, is sound: its entries are a legal history, each result is that
/// of the statement at its place, and no word is invented. If no thread is unfinished its report fits the script.
pub fn runs_are_sound()
    ensures { RunsAreSound }
{
    runs_are_legal();
    runs_are_whole();
    runs_fit();
    no_block_is_invented();
    entries_are_at_most_statements();
    transcripts_are_short();
    reports_that_fit_are_audited();
}

/// So is the run of each end of a command: of `replay`, `dup` and `local`, and of `run` and `make` whatever the order of the steps was.
pub fn reports_are_sound()
    ensures { ReportsAreSound }
{
    runs_are_sound();
    read_policies_are_well_made();
    read_scripts_are_ready();
    read_schedules_are_bounded();
    thinned_scripts_are_sound();
}

/// If each statement of a script is a call and every channel is clean, the totals of each report that fits the script are those that the
/// verdicts of its policies give, whatever the order of the steps was.
pub fn totals_are_of_verdicts()
    ensures { TotalsAreOfVerdicts }
{
    blocks_come_back();
    sound_parts();
}

/// Each order of at most 100,000 steps of a script's actors is a replay: its text, in which each of them makes one step, in turn, can be read
/// from a file, and `replay` with it comes to a run that ends in the world to which these steps lead from the start. So the report of a run on
/// threads, if it comes of an order of as few steps, is that of the replay of this order.
pub fn orders_are_replayed()
    ensures orders { OrdersAreReplayed }
    ensures threads { ThreadedRunsAreReplayed }
{
    written_schedules_are_read();
    written_schedules_are_short();
    steps_are_folds();
    sound_parts();
    read_policies_are_well_made();
    read_scripts_are_ready();
}
