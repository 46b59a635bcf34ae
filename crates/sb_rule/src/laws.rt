// Laws of verdicts and of accesses. None of these functions does anything: each contract is a law.
ghost use Rattle.sb_rule.specs.Accesses.{BitsReadOrWrite};
ghost use Rattle.sb_rule.specs.Verdicts.{FirstRuleDecides, DecidingRuleIsFirst, NoRuleWhereNoneHolds, RulesWithoutConditionsDecide, AppendingKeepsVerdicts};

/// A rule that holds decides if no rule before it holds; and if a verdict is a rule, one of the rules is the first that
/// holds, and line and action are its own.
pub fn first_rule_decides()
    ensures first { FirstRuleDecides }
    ensures deciding { DecidingRuleIsFirst }
{}

/// There is no rule exactly if no rule holds.
pub fn no_rule_where_none_holds()
    ensures { NoRuleWhereNoneHolds }
{}

/// A rule without conditions decides every call of its tag on which no rule before it decided.
pub fn rules_without_conditions_decide()
    ensures { RulesWithoutConditionsDecide }
{}

/// Rules appended never change a verdict that a rule gave before.
pub fn appending_keeps_verdicts()
    ensures { AppendingKeepsVerdicts }
{}

/// The bits of an access below 2^32 that a call under a `readonly` rule may not have are all those that do not only read.
pub fn bits_read_or_write()
    ensures { BitsReadOrWrite }
{}
