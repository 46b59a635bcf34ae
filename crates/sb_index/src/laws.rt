// Laws of indexes. None of these functions does anything: each contract is a law.
ghost use Rattle.sb_index.specs.Laws.{RulesThatHoldPass};
ghost use Rattle.sb_index.specs.Sizes.{IndexesAreSmall};

/// A rule that holds of arguments passes each question that the arguments meet. So a rule that does not pass does not hold.
pub fn rules_that_hold_pass()
    ensures { RulesThatHoldPass }
{}

/// The sets and bounds of the indexes of a policy, one for each call, take at most 64 KiB together.
pub fn indexes_are_small()
    ensures { IndexesAreSmall }
{}
