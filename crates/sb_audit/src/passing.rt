// The transcripts of the program's own reports pass an audit.
ghost use Rattle.sb_core.specs.Fits.{Fits};
ghost use Rattle.sb_audit.specs.Converse.{IsAuditedYes};

use crate::laws::reports_that_fit_are_audited;
use crate::printable::establish_printable;
use sb_book::{ReadyScript, Report};

/// If a report fits its script, an audit of its transcript says yes, with the numbers of its entries and its results. This reads the report,
/// and changes nothing.
pub fn establish_audited(ready: &ReadyScript, report: &Report)
    ensures { Fits ready.now.policies ready.now.script report.now → IsAuditedYes ready.now.policies ready.now.script report.now }
{
    ready.establish_ready();
    establish_printable(report);
    reports_that_fit_are_audited();
}
