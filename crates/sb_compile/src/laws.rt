// Laws of compiling. None of these functions does anything: each contract is a law.
ghost use Rattle.sb_compile.specs.Indexed.{CandidatesHaveEachThatHolds, CompiledRulesAreFew};
ghost use Rattle.sb_compile.specs.Laws.{CompilingKeepsVerdicts, CompiledCodeIsFaultless, GroupsHoldWhereConditionsDo, LetterCaseDoesNotMatter, PatternOpcodesHoldWhereItMatches};
ghost use Rattle.sb_compile.specs.ListingLaws.{DifferentCodeIsListedDifferently, ListingsDiffer};
ghost use Rattle.sb_compile.specs.ListingLines.{ListingsAreLines};

use sb_base::quotes_differ;
use sb_call::{fitting_args, tags_and_numbers};
use sb_rule::matching_folds;

/// The program of a well-made policy says of each call whose arguments fit what the policy says.
pub fn compiling_keeps_verdicts()
    ensures { CompilingKeepsVerdicts }
{
    fitting_args();
    tags_and_numbers();
}

/// The code of a call that has rules, under a well-made policy, has no fault.
pub fn compiled_code_is_faultless()
    ensures { CompiledCodeIsFaultless }
{
    tags_and_numbers();
}

/// The opcodes of a pattern hold of a string, one after the other, exactly if the pattern matches it. So taking each run of
/// cells between two stars at its first place loses nothing. The group of a condition holds exactly if the condition does.
pub fn groups_hold_where_conditions_do()
    ensures pattern { PatternOpcodesHoldWhereItMatches }
    ensures condition { GroupsHoldWhereConditionsDo }
{
    fitting_args();
}

/// If two well-made policies differ in the letter case of strings and patterns alone, their programs say the same.
pub fn letter_case_does_not_matter()
    ensures { LetterCaseDoesNotMatter }
{
    compiling_keeps_verdicts();
    matching_folds();
}

/// A listing is a line for each call that has code and a line for each opcode, in their order, and each ends with the one LF
/// that it holds.
pub fn listings_are_lines()
    ensures { ListingsAreLines }
{}

/// Programs of one name whose code differs for a call are listed differently, if the opcodes are as compiling makes them. So
/// two well-made policies of one name, whose values have the sizes of their types, are listed alike only if their programs are
/// the same.
pub fn listings_differ()
    ensures codes { ListingsDiffer }
    ensures policies { DifferentCodeIsListedDifferently }
{
    quotes_differ();
}

/// A rule that is not a candidate does not hold: whatever set has each of the rules that hold of some arguments has the number
/// of each rule of their code that does.
pub fn candidates_have_each_that_holds()
    ensures { CandidatesHaveEachThatHolds }
{
    fitting_args();
    tags_and_numbers();
}

// The code of at most 256 rules has at most 256.
pub(crate) fn compiled_rules_are_few()
    ensures { CompiledRulesAreFew }
{
    tags_and_numbers();
}
