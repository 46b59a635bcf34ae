// Laws of handles and shares. None of these functions changes anything: each contract is a law.
ghost use Rattle.sb_handles.specs.Laws.{NumbersAreNew, GrantsAreHeld, ClosedAreGone, GrantsKeepFiles, GrantsLeaveFiles, ClosesKeepFiles, HeldOnOne, OneIsLeft, OpensComeBack, GrantsCount, ClosesCount, ConflictsAreOpen, ConflictsAreLowest, NoConflictMeansNone, ConflictsAreHeld, HeldHandlesConflict};
ghost use Rattle.sb_handles.specs.Histories.{GrantedNeverFalls, NumbersAreCounted, NumbersRise};

/// The number of a new handle is none that an open handle has.
#[tactic(auto, using(crate::proofs::TableLaws::numbers_are_new))]
pub fn numbers_are_new()
    ensures { NumbersAreNew }
{}

/// A handle that was granted is held by its target alone, and every other number by whom it was.
#[tactic(auto, using(crate::proofs::TableLaws::grants_are_held))]
pub fn grants_are_held()
    ensures { GrantsAreHeld }
{}

/// A handle that was closed is held no more, and every other as before.
#[tactic(auto, using(crate::proofs::TableLaws::closed_are_gone))]
pub fn closed_are_gone()
    ensures { ClosedAreGone }
{}

/// Shares that agree with a table on files agree after a handle was granted on a file and opened under its number, after
/// one was granted on any other object, and after one was closed and left.
#[tactic(auto, using(crate::proofs::TableLaws::grants_keep_files, crate::proofs::TableLaws::grants_leave_files, crate::proofs::TableLaws::closes_keep_files))]
pub fn agreement_is_kept()
    ensures grants { GrantsKeepFiles }
    ensures others { GrantsLeaveFiles }
    ensures closes { ClosesKeepFiles }
{}

/// An object that is opened under the number of the next handle, and left again, leaves the shares as they were.
#[tactic(auto, using(crate::proofs::TableLaws::opens_come_back))]
pub fn opens_come_back()
    ensures { OpensComeBack }
{}

/// A handle that a target holds is open on its object at most, and is left when its share of the object is taken out.
#[tactic(auto, using(crate::proofs::TableLaws::held_on_one, crate::proofs::TableLaws::one_is_left))]
pub fn handles_are_on_one_object()
    ensures held { HeldOnOne }
    ensures left { OneIsLeft }
{}

/// A granted handle is one more on its pipe, and a closed one is one fewer.
#[tactic(auto, using(crate::proofs::TableLaws::grants_count, crate::proofs::TableLaws::closes_count))]
pub fn pipe_handles_are_counted()
    ensures grants { GrantsCount }
    ensures closes { ClosesCount }
{}

/// No number is granted twice in a history of grants and closes: the numbers rise, from the count of handles granted before
/// to the count after, which never falls.
#[tactic(auto, using(crate::proofs::HistoryLaws::numbers_rise, crate::proofs::HistoryLaws::numbers_are_counted, crate::proofs::HistoryLaws::granted_never_falls))]
pub fn numbers_are_granted_once()
    ensures rise { NumbersRise }
    ensures counted { NumbersAreCounted }
    ensures granted { GrantedNeverFalls }
{}

/// The handle that a conflict names is open on the object, and is the lowest that conflicts; if none is named, none conflicts.
#[tactic(auto, using(crate::proofs::ConflictLaws::conflicts_are_open, crate::proofs::ConflictLaws::conflicts_are_lowest, crate::proofs::ConflictLaws::no_conflict_means_none))]
pub fn conflicts_are_lowest()
    ensures there { ConflictsAreOpen }
    ensures lowest { ConflictsAreLowest }
    ensures none { NoConflictMeansNone }
{}

/// If shares and a handle table agree, a new access conflicts exactly if some target holds a handle that conflicts.
#[tactic(auto, using(crate::proofs::ConflictLaws::conflicts_are_held, crate::proofs::ConflictLaws::held_handles_conflict))]
pub fn conflicts_are_held()
    ensures held { ConflictsAreHeld }
    ensures conflicting { HeldHandlesConflict }
{}
