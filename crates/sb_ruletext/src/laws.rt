// Laws of policy texts. None of these functions does anything: each contract is a law.
ghost use Rattle.sb_ruletext.specs.Laws.{FirstFaultsStay, LinesBeforeAreRead, ReadPoliciesAreWellMade, SilentTextsLackAVersion, SkippedLinesCountAlone};

use crate::faults::PolicyFaultKind;
use sb_rule::{PolicyList, texts_and_patterns};
use sb_text::{quoted_strings_are_read, quoted_tokens_are_text};

/// A fault on one of the first lines of a text, not all of which are blank or comments, is that of each text that begins with these
/// lines: a fault depends on its line and on those before it alone.
pub fn first_faults_stay()
    ensures { FirstFaultsStay }
{
    sb_text::first_faults_stay::<PolicyList, PolicyFaultKind>();
}

/// The lines before the one with the fault, if not all of them are blank or comments, are read as policies.
pub fn lines_before_are_read()
    ensures { LinesBeforeAreRead }
{
    sb_text::lines_before_are_read::<PolicyList, PolicyFaultKind>();
}

/// A text whose lines are all blank or comments lacks a version, on line 1.
pub fn silent_texts_lack_a_version()
    ensures { SilentTextsLackAVersion }
{}

/// A blank or comment line may be put in anywhere below the version line, and changes nothing but numbers of lines.
pub fn skipped_lines_count_alone()
    ensures { SkippedLinesCountAlone }
{
    sb_text::skipped_lines_count_alone::<PolicyList, PolicyFaultKind>();
}

/// The policies that a text is read as are well made. This is a law of the grammar, for every list of bytes.
pub fn read_policies_are_well_made()
    ensures { ReadPoliciesAreWellMade }
{
    texts_and_patterns();
    quoted_tokens_are_text();
    quoted_strings_are_read();
}
