// Laws of worlds and runs. None of these functions does anything: each contract is a law.
ghost use Rattle.sb_core.specs.Findings.{RunsAreCaused, ThreadsFollowTheirValues, WorldsAreCaused};
ghost use Rattle.sb_core.specs.OfScripts.{DrainsAreOfScripts, StartsAreOfScripts, StepsAreOfScripts, WorldsOfScriptsRun};
ghost use Rattle.sb_core.specs.Laws.{WorldsHaveTargets, PlansAreThere, EndsAreRuns, EndsCanFinish, StartsKeep, StepsKeep, DrainsKeep, StepsChangeLittle, CopiesAreAnswered, TurnsAreHeld, CopiesAreJudged, FinishedThreadsStay, StepsAreFolds, RoundsAreSteps, DrainsAreSteps, BeginningsAreSteps, WorkersAreThere, OrdersAreSchedules, DrainsSettle, RunsAreLegal, RunsHaveResults, FinishedRunsAreWhole, RunsKeepWords};

use sb_actor::{results_have_causes, results_have_steps};
use sb_book::answers_keep_histories;
use sb_statements::sound_parts;

/// The world of a script that is ready for policies runs it, and so does the world after a step of an actor that is there, and after a
/// drain. Every such world keeps what its type says.
pub fn worlds_keep()
    ensures start { StartsKeep }
    ensures step { StepsKeep }
    ensures drain { DrainsKeep }
{
    sound_parts();
}

/// The world that a script starts with is one of the script, and so is the world after a step of an actor that is there, and after a
/// drain. Each of them keeps what its type says, and runs its script.
pub fn worlds_are_of_scripts()
    ensures start { StartsAreOfScripts }
    ensures step { StepsAreOfScripts }
    ensures drain { DrainsAreOfScripts }
    ensures runs { WorldsOfScriptsRun }
{
    sound_parts();
}

/// A world that runs its script has each target of it, and no other, with a worker and 65 words for each channel. If the next step of an
/// actor that is there is on a word, then its target, its channel and the word are there: there are at most 8 targets of at most 8
/// channels.
pub fn plans_are_there()
    ensures targets { WorldsHaveTargets }
    ensures plans { PlansAreThere }
{
    sound_parts();
}

/// A step changes at most one word, which its plan names; besides, the actor that makes it, and its results by at most one; the turn
/// at Take and Give alone; and the book at Answer alone.
pub fn steps_change_little()
    ensures { StepsChangeLittle }
{
    sound_parts();
}

/// At Answer the book has one entry more, the answer to the worker's copy on its channel.
pub fn copies_are_answered()
    ensures { CopiesAreAnswered }
{}

/// A worker that tries to take the turn finds it held exactly if another worker is at Answer or Give.
pub fn turns_are_held()
    ensures { TurnsAreHeld }
{}

/// A worker judges what it copied: from the end of the copy until the reply is acknowledged it loads nothing, and after each step it
/// keeps the copy or looks on.
pub fn copies_are_judged()
    ensures { CopiesAreJudged }
{}

/// A step of a finished thread does nothing.
pub fn finished_threads_stay()
    ensures { FinishedThreadsStay }
{}

/// A run is a fold of steps: what comes first decides the world after it. Rounds are steps of the actors that a round names, as long as a
/// thread is unfinished; a drain is steps of the workers in target order, as long as the world is not settled, and so is each
/// beginning of a drain. All of these actors are there. Each order of actors is that of a schedule.
pub fn steps_are_folds()
    ensures steps { StepsAreFolds }
    ensures rounds { RoundsAreSteps }
    ensures drain { DrainsAreSteps }
    ensures beginnings { BeginningsAreSteps }
    ensures there { WorkersAreThere }
    ensures orders { OrdersAreSchedules }
{}

/// A drain leaves every worker looking and no state word at 3, whatever the words hold.
pub fn drains_settle()
    ensures { DrainsSettle }
{}

/// The entries of a run are a legal history: each follows from its own copy, the policy of its target, and the namespace that the
/// entries before it led to. The kernel of the report is the namespace after all of them.
pub fn runs_are_legal()
    ensures { RunsAreLegal }
{
    answers_keep_histories();
    sound_parts();
}

/// Each result of a run is that of the statement at its place. If no thread is unfinished, each statement has one, and no state
/// word is 3. Each target has 65 words for each channel.
pub fn runs_are_whole()
    ensures results { RunsHaveResults }
    ensures finished { FinishedRunsAreWhole }
    ensures words { RunsKeepWords }
{
    answers_keep_histories();
    sound_parts();
}

/// If steps of actors that are there lead, from the start, to a world in which no thread is unfinished and nobody has the turn, the
/// report that `finish` gives for its words, workers, book and results is that of a run by the schedule of these steps. If every
/// worker looks there, then nobody has the turn, and `finish` can be called.
pub fn ends_are_runs()
    ensures runs { EndsAreRuns }
    ensures finish { EndsCanFinish }
{
    sound_parts();
    runs_are_whole();
}

/// After any steps of actors that are there, the values that a thread's own steps found on the way determine where it is and its results.
pub fn threads_follow_their_values()
    ensures { ThreadsFollowTheirValues }
{
    sound_parts();
    results_have_steps();
}

/// Each result of a report has its cause in the run: among the values that the steps of its thread found, by the schedule and the rounds
/// that followed, are those of its own statement, and by them the statement ended so. `NoChannel`, `SendLost`, `Foreign`, `TimedOut`,
/// `Met` and `Unmet` come as `calls_end_for_cause` and `waits_end_for_cause` of sb_actor say. So it is at any moment, of the results so
/// far, after any steps of actors that are there.
pub fn reports_have_causes()
    ensures worlds { WorldsAreCaused }
    ensures runs { RunsAreCaused }
{
    sound_parts();
    results_have_steps();
    results_have_causes();
}
