// The law of printing. This function does nothing: its contract is the law.
ghost use Rattle.sb_ruletext.specs.PrintingLaws.{PrintedPoliciesAreRead};

use sb_rule::texts_and_patterns;
use sb_text::{
    hexadecimals_are_read, not_utf8_place_tells, plain_lines_are_read, quoted_strings_are_read,
};

/// The text of policies that are well made is read as these policies, in which each rule has the number of the line on
/// which it is printed.
pub fn printed_policies_are_read()
    ensures { PrintedPoliciesAreRead }
{
    not_utf8_place_tells();
    plain_lines_are_read();
    hexadecimals_are_read();
    quoted_strings_are_read();
    texts_and_patterns();
}
