// Laws of explained decisions. None of these functions does anything: each contract is a law.
ghost use Rattle.sb_explain.specs.Laws.{DecidingReasonIsLast, ListingsAreCapped, MarksAreOfCalls, ReasonsAreComplete, ReasonsAreRight, ReasonsDecide, ReasonsDecideEntries};

/// Each reason is right: a rule that is said to fail is for the call, this condition of it does not hold on the arguments, and all before it hold; a rule that is
/// said to hold is for the call, and all its conditions hold.
pub fn reasons_are_right()
    ensures { ReasonsAreRight }
{}

/// The rule that is said to hold is the verdict, and there is no rule exactly if none is said to hold.
pub fn reasons_decide()
    ensures decide { ReasonsDecide }
    ensures last { DecidingReasonIsLast }
{}

/// The rules of the reasons are all rules for the call, in their order, up to the one that decides.
pub fn reasons_are_complete()
    ensures { ReasonsAreComplete }
{}

/// In a legal history the reasons that are told of a copy without a fault decide its entry.
pub fn reasons_decide_entries()
    ensures { ReasonsDecideEntries }
{}

/// The call that a mark belongs to has this mark, and no other call of the target among the first 65,536 of a thread has it.
pub fn marks_are_of_calls()
    ensures { MarksAreOfCalls }
{}

/// The text of a listing is that of its lines, if they are at most 4,000,000, and else that of the first 4,000,000 with `more` after them.
pub fn listings_are_capped()
    ensures { ListingsAreCapped }
{}
