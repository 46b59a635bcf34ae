// Laws of histories. None of these functions does anything: each contract is a law.
ghost use Rattle.sb_book.specs.Headline.{EntriesSayWhatWasDone};
ghost use Rattle.sb_book.specs.Laws.{AnswersKeepHistories, FrontsAreLegal, OnlyPerformedCallsCount, PerformedCallsAreAllowed};
ghost use Rattle.sb_book.specs.Targets.{TargetsAppend, OwnEntryIsLast, OtherEntriesStay};

use sb_rule::first_rule_decides;

/// Every front of a legal history is a legal history.
pub fn fronts_are_legal()
    ensures { FrontsAreLegal }
{}

/// The namespace after entries is that after those alone whose calls were performed: no other entry changes it.
pub fn only_performed_calls_count()
    ensures { OnlyPerformedCallsCount }
{}

/// Each call that is performed has a rule of the policy: the call is the copy's, the policy's rules are some rules,
/// of which none holds for the call, then this rule, which holds, and then others; line and action are the rule's own, and
/// the arguments performed are the copy's, or under `readonly` the copy's with the access cut to the bits that only read.
pub fn performed_calls_are_allowed()
    ensures { PerformedCallsAreAllowed }
{
    first_rule_decides();
}

/// An answer to a copy, decided by the policy of its target, leaves a legal history and the namespace that it led to.
pub fn answers_keep_histories()
    ensures { AnswersKeepHistories }
{}

/// The headline, entry by entry. Entry `n` of a legal history says by its decision what was done.
///
/// Refused: the copy has exactly that fault. Denied: the copy has no fault, the call is the copy's, and the verdict of its
/// target's policy is no rule, or a rule on this line that says deny or alarm. Faked: the same with a rule that says fake.
/// These three leave the namespace as it was, and their whole reply is known: outcome and status by the decision, no handle, and the words
/// of the fault if the block was refused, else none. Performed: the copy has no fault, and the first of the policy's rules that
/// holds says allow and the arguments are the copy's, or it says readonly and they are the copy's with the access cut;
/// performing exactly these arguments led from the namespace before the entry to the one after it, and the reply is the
/// answer to that. Each reply bears the mark of its copy.
pub fn entries_say_what_was_done()
    ensures { EntriesSayWhatWasDone }
{
    first_rule_decides();
}

/// The entries of one target, if others are put after them: an entry put after all is the last of its own target, and none
/// of any other.
pub fn entries_of_targets_append()
    ensures append { TargetsAppend }
    ensures own { OwnEntryIsLast }
    ensures others { OtherEntriesStay }
{}
