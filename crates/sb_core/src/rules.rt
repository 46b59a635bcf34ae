// Rule S over worlds, and what follows for reports. None of these functions does anything: each contract is a law.
ghost use Rattle.sb_core.specs.EntryCounts.{RunsHaveFewEntries, StatementsAreFew, WorldsHaveFewEntries};
ghost use Rattle.sb_core.specs.Fits.{RepliesAreOwn, RunsFit, RunsReplyOwn, WorldsOfScriptsReplyOwn};
ghost use Rattle.sb_core.specs.Origins.{NoBlockIsInvented, WorldsAreSourced};
ghost use Rattle.sb_core.specs.Rules.{RuleHolds, RuleLaws, RunsKeepRule, WorldsOfScriptsKeepRule};
ghost use Rattle.sb_core.specs.Tallies.{EntriesAreFew, WorldsAreFew};

use crate::laws::drains_settle;
use sb_actor::{
    blocks_are_whole, clean_channels_are_kept, starts_in_rule, stray_keeps_rule, thread_follows,
    thread_keeps_rule, worker_follows, worker_keeps_rule,
};
use sb_block::replies_come_back;
use sb_book::answers_keep_histories;
use sb_kernel::answers_are_short;
use sb_statements::sound_parts;

// The laws of rule S over the views of actors.
fn rule_laws()
    ensures { RuleLaws }
{
    starts_in_rule();
    thread_keeps_rule();
    worker_keeps_rule();
    stray_keeps_rule();
    worker_follows();
    thread_follows();
    clean_channels_are_kept();
    blocks_are_whole();
}

/// After any list of steps of actors that are there, the channel words of each target keep rule S with what its worker and its threads
/// know, and so they do in the world that a schedule leads to and after the drain of it. So on a channel that no statement writes
/// directly the worker copies the whole block of the one thread that is there, and that thread fetches the whole reply to it. The
/// script is ready for the policies.
pub fn rule_holds()
    ensures steps { RuleHolds }
    ensures runs { RunsKeepRule }
{
    sound_parts();
    rule_laws();
}

/// The report of a run in which no thread is unfinished fits its script: its entries are a legal history, there is one result for each
/// statement, each thread on a clean channel has its own calls' replies, each once, each result suits its statement, and each clean
/// channel is free at the end.
pub fn runs_fit()
    ensures { RunsFit }
{
    sound_parts();
    answers_keep_histories();
    answers_are_short();
    replies_come_back();
    drains_settle();
    rule_laws();
}

/// At any moment, the entries of a thread on clean channels are its results `Reply` there, in order, each with the whole block of its
/// statement and the reply, and besides at most the entry of its present call.
pub fn replies_are_own()
    ensures steps { RepliesAreOwn }
    ensures runs { RunsReplyOwn }
{
    sound_parts();
    answers_keep_histories();
    answers_are_short();
    replies_come_back();
    rule_laws();
}

/// No block is invented. In the report of every run each word of a copy has a source at its place in the channel: it is 0, of the
/// block of a call of a thread of that target, of a statement that stores it there, or of the reply of an earlier entry on that channel. So
/// has each value that a result shows, and each word at the end; a state is from 1 to 5, or of such a statement. And if no thread
/// is unfinished, a channel has no more entries than calls that were handed over there and statements that made it ready. Nothing is
/// asked of the script but that the run can be made.
pub fn no_block_is_invented()
    ensures sources { NoBlockIsInvented }
    ensures few { EntriesAreFew }
{
    sound_parts();
}

/// Whoever holds a world of a script may rely on rule S for each of its targets, over the script's clean channels, and on each thread's own
/// replies, without knowing which steps led to it.
pub fn worlds_of_scripts_keep_rule()
    ensures rule { WorldsOfScriptsKeepRule }
    ensures replies { WorldsOfScriptsReplyOwn }
{
    rule_holds();
    replies_are_own();
}

/// At any moment, in each world of a script, each channel word, each word of an entry's copy, and each value that a result shows so far has
/// a source, as in the report of a run; and a channel has no more entries than calls that were handed over there so far and statements
/// that made it ready. Nothing is asked of the script but that it is ready for the policies.
pub fn worlds_of_scripts_invent_nothing()
    ensures sources { WorldsAreSourced }
    ensures few { WorldsAreFew }
{
    sound_parts();
}

/// A run has at most as many entries as its script has statements, and a sound script has at most 131,072: each entry is of a call that was
/// handed over, or of a statement that made its channel ready. So it is in each world of a script, whichever steps led there, and in the
/// report of every run, also if it leaves a thread unfinished.
pub fn entries_are_at_most_statements()
    ensures worlds { WorldsHaveFewEntries }
    ensures runs { RunsHaveFewEntries }
    ensures most { StatementsAreFew }
{
    sound_parts();
    answers_keep_histories();
}
