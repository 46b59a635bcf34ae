// Laws of what is written and audited. Each takes a report that the program holds, since the numbers of such a report are in the ranges of their types;
// it reads the report, and changes nothing.
ghost use Rattle.std.specs.Prelude.{IfSome};
ghost use Rattle.sb_top.specs.Audits.{OutcomesAreAudited, ReplaysAreAudited, ThreadedRunsAreAudited};
ghost use Rattle.sb_transcript.specs.Printable.{IsPrintable};

use crate::laws::reports_are_sound;
use sb_audit::establish_printable;
use sb_book::Report;
use sb_plain::Outcome;

/// What `replay` writes if it is done, and what `run` writes whatever the order of the steps was, is at most 536,870,912 bytes long, and `audit` says yes
/// to it over the same policies and script. The report is that of the run.
pub fn replays_are_audited(report: &Report)
    ensures replay { ReplaysAreAudited report.now }
    ensures run { ThreadedRunsAreAudited report.now }
{
    establish_printable(report);
    reports_are_sound();
}

fn establish_report(report: &Option<Report>)
    ensures { IfSome report.now IsPrintable }
{
    match report {
        Some(report) => establish_printable(report),
        None => {}
    }
}

/// What `replay` or `run` wrote, if it ended with this outcome and that is Done, is a transcript of at most 536,870,912 bytes, and `audit` says yes to it over
/// the same policies and script, with the numbers of entries and results of the outcome's report. Nothing else is asked than what `broker_top` says of the
/// outcome.
pub fn outcomes_are_audited<G, S>(outcome: &Outcome<'_>)
    ensures { OutcomesAreAudited G S outcome.now }
{
    establish_report(&outcome.report);
    reports_are_sound();
}
