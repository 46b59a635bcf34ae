// Laws of rule S, and of the causes of results. None of these functions does anything: each contract is a law.
ghost use Rattle.sb_actor.specs.Causes.{CallsBegin, CallsEndForCause, CausesEndCalls, CausesEndWaits, WaitsBegin, WaitsEndForCause};
ghost use Rattle.sb_actor.specs.Findings.{ResultsHaveCauses, ResultsHaveSteps, ValuesTell};
ghost use Rattle.sb_actor.specs.Following.{WorkerFollows};
ghost use Rattle.sb_actor.specs.Laws.{ThreadKeeps, WorkerKeeps, StrayKeeps, Starts, BlocksAreWhole, ChannelsHaveOneThread};
ghost use Rattle.sb_actor.specs.ThreadFollowing.{ThreadFollows, GivingUpIsKept};

use sb_block::{blocks_come_back, copies_are_whole};
use sb_statements::sound_parts;

/// The opening words meet the rule with a worker and threads that made no step.
pub fn starts_in_rule()
    ensures { Starts }
{}

/// A step that a thread may make keeps the rule: on a clean channel it fills, hands over, fetches and frees its own call.
pub fn thread_keeps_rule()
    ensures { ThreadKeeps }
{}

/// A step that the worker may make keeps the rule: on a clean channel it copies the whole block, and its reply is stored before it
/// acknowledges.
pub fn worker_keeps_rule()
    ensures { WorkerKeeps }
{}

/// The step of a statement that names a word keeps the rule: it stores into no clean channel.
pub fn stray_keeps_rule()
    ensures { StrayKeeps }
{}

/// At a clean channel whose state is 1 is no thread of the target, and at each other one, whose state is from 2 to 4, is exactly one.
pub fn channels_have_one_thread()
    ensures { ChannelsHaveOneThread }
{}

/// The block that a thread fills is a whole one: its count and its end say what it is, and its mark bears the thread's number.
pub fn blocks_are_whole()
    ensures { BlocksAreWhole }
{
    copies_are_whole();
    blocks_come_back();
}

/// The worker's step on a word is one that a worker in its view may make, it writes what such a step writes, and the view after it
/// shows the stage to which the worker then comes.
pub fn worker_follows()
    ensures { WorkerFollows }
{}

/// A thread's step within a call is one that a thread in its view may make, it writes what such a step writes, and the view after it
/// shows the stage to which the thread then comes, also if the step ends the call.
pub fn thread_follows()
    ensures { ThreadFollows }
{}

/// A thread gives up no clean channel.
pub fn clean_channels_are_kept()
    ensures { GivingUpIsKept }
{}

/// A `wait` ends with `Met` at the first load that found its value, and with `Unmet` exactly if as many loads as it may make found
/// other values.
pub fn waits_end_for_cause()
    ensures begin { WaitsBegin }
    ensures causes { WaitsEndForCause }
    ensures ends { CausesEndWaits }
{
    sound_parts();
}

/// A call ends for the cause that its own steps found since it began: `NoChannel` if a whole round of tries found each channel
/// abandoned, or the target has no clean channel and as many rounds as the patience found none free; `SendLost` if the exchange that
/// hands the block over found another value than 2; `TimedOut` if, on a channel that is not clean, as many loads as the patience
/// found no reply; and `Reply` or `Foreign` if a load found one, which was fetched whole, by its mark.
pub fn calls_end_for_cause()
    ensures begin { CallsBegin }
    ensures causes { CallsEndForCause }
    ensures ends { CausesEndCalls }
{
    sound_parts();
}

/// The values that a thread's steps found determine where it is and its results, and each result has its own steps among them: the thread
/// began the statement at that place, and the steps that followed ended it so.
pub fn results_have_steps()
    ensures values { ValuesTell }
    ensures steps { ResultsHaveSteps }
{}

/// Each result of a thread of a sound script has its cause in the values that the steps of its own statement found: that of a call as in
/// `calls_end_for_cause`, that of a `wait` as in `waits_end_for_cause`, and every other statement ends at its only step, a load and an
/// exchange with the value that this found.
pub fn results_have_causes()
    ensures { ResultsHaveCauses }
{
    sound_parts();
}
