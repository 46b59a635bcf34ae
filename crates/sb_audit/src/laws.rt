// Laws of audits. None of these functions does anything: each contract is a law.
ghost use Rattle.sb_audit.specs.Converse.{ReportsThatFitAreAudited};
ghost use Rattle.sb_audit.specs.Laws.{EmptyTranscriptsAreRefuted};

use sb_block::faultless_copies_fit;
use sb_rule::first_rule_decides;
use sb_transcript::{lines_are_read, lines_end_once, lines_end_without_cr};

/// An empty transcript fails the first clause at line 1.
pub fn empty_transcripts_are_refuted()
    ensures { EmptyTranscriptsAreRefuted }
{}

/// No clause fails in the transcript of a report that fits its script and can be printed.
pub fn reports_that_fit_are_audited()
    ensures { ReportsThatFitAreAudited }
{
    lines_are_read();
    lines_end_without_cr();
    lines_end_once();
    faultless_copies_fit();
    first_rule_decides();
}
