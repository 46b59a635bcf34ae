// Laws of hosts. None of these functions does anything: each contract is a law.
ghost use Rattle.sb_host.specs.AdoptLaws.{AdoptingEndsAsNew, AdoptingGivesUp, AdoptingLeavesNoneReady};
ghost use Rattle.sb_host.specs.Calls.{CallsStepAsThreads};
ghost use Rattle.sb_host.specs.ChannelLaws.{AnswersAreUnseen, CallsGoAsCallers, CallsHaveTheirReplies, DecisionsAreUnseen, HostsGoAsWorkers, TurnsAreUnseen};
ghost use Rattle.sb_host.specs.HistoryLaws.{HostsKeepTheSpace, HostsMakeHistories, HostsReplyAsEntries};
ghost use Rattle.sb_host.specs.HostLaws.{AdoptingHostsAreTrue, NewHostsAreTrue, PerformingIsAnswering};
ghost use Rattle.sb_host.specs.Replies.{HostsReplyAsBooks};

use sb_actor::{starts_in_rule, thread_keeps_rule, worker_follows, worker_keeps_rule};

/// Whatever is in memory, and in whatever order a host calls: the copy that a worker answers has the words that were loaded since the last
/// answer; what is decided of it, with the arguments that are granted, is the decision of the policy that was given since, on that copy;
/// and the words of each reply are those of that decision, with the host's answer if the call is performed. So there is a whole copy of its
/// own between two answers.
#[tactic(auto, using(crate::proofs::HostTruth::new_hosts, crate::proofs::HostTruth::adopting_hosts))]
pub fn hosts_are_true_to_what_they_told()
    ensures new { NewHostsAreTrue }
    ensures adopting { AdoptingHostsAreTrue }
{}

/// A worker that takes over channels which had one first makes one step a channel, in order: it exchanges the state from 3 to 5, so that a call which was
/// handed over is given up and no later look finds it. Then it is a worker before its first step.
#[tactic(auto, using(crate::proofs::Adopting::gives_up, crate::proofs::Adopting::none_ready, crate::proofs::Adopting::ends_as_new))]
pub fn adopting_gives_calls_up()
    ensures gives_up { AdoptingGivesUp }
    ensures none_ready { AdoptingLeavesNoneReady }
    ensures new { AdoptingEndsAsNew }
{}

/// A host that performs in a namespace of the product's own goes on as one that answers as the namespace does, and its reply is that of the
/// book of a run.
#[tactic(auto, using(crate::proofs::HostTruth::performing, crate::proofs::HostTruth::as_books))]
pub fn performing_is_answering()
    ensures answering { PerformingIsAnswering }
    ensures book { HostsReplyAsBooks }
{}

/// Answers in a namespace of the product's own, one after another, each by the policy of its target on the copy of its worker, are a legal history;
/// the namespace is the one that its entries lead to, and each worker replies what its entry says.
#[tactic(auto, using(crate::proofs::Histories::histories, crate::proofs::Histories::spaces, crate::proofs::Histories::replies))]
pub fn hosts_make_histories()
    ensures legal { HostsMakeHistories }
    ensures space { HostsKeepTheSpace }
    ensures replies { HostsReplyAsEntries }
{}

/// On the channels of one target, whose states are 1 and whose other words are 0 at the start, and into which nobody but the worker and the
/// callers stores, after any number of steps that they may make: the calls that the worker served for a caller are those of this caller
/// that ended, in order and each once, and at most one that is about to end. Each was answered on a copy that is the caller's whole block,
/// and the words that the caller fetched are those that the worker stored for it.
#[tactic(auto, using(crate::proofs::ChannelRuns::have_replies))]
pub fn calls_have_their_replies()
    ensures { CallsHaveTheirReplies }
{
    starts_in_rule();
    worker_keeps_rule();
    thread_keeps_rule();
}

/// Each step of a call that waits for ever, whose block is a whole one of its caller, is one that a caller may make in such a run, and the view of
/// the caller goes on as the call does.
pub fn calls_go_as_callers()
    ensures { CallsGoAsCallers }
{}

/// Each step of a host on a word, if its worker takes over no channel, is one that a worker may make in such a run, and what is seen of the worker goes on
/// as the host does. Its steps on the turn, its decisions and its answers change nothing that is seen. Each value of `HostWorker` is as these laws require
/// (`HostWorker::establish_sound`).
#[tactic(auto, using(crate::proofs::WorkerSteps::as_workers, crate::proofs::WorkerSteps::turns_unseen, crate::proofs::WorkerSteps::decisions_unseen, crate::proofs::WorkerSteps::answers_unseen))]
pub fn hosts_go_as_workers()
    ensures words { HostsGoAsWorkers }
    ensures turns { TurnsAreUnseen }
    ensures decisions { DecisionsAreUnseen }
    ensures answers { AnswersAreUnseen }
{
    worker_follows();
}

/// Each step of a call in plain memory is that of a thread of a script whose call has the same mark and block: it plans the same step and,
/// whatever that finds, goes on to the same stage or ends with the same result. With patience 0 it waits as a thread waits on a clean
/// channel, and otherwise as a thread with this patience on one that is not clean.
#[tactic(auto, using(crate::proofs::CallSteps::as_threads))]
pub fn calls_step_as_threads()
    ensures { CallsStepAsThreads }
{}
