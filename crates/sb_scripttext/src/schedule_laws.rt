// Laws of schedule texts. None of these functions does anything: each contract is a law.
ghost use Rattle.sb_scripttext.specs.ScheduleLaws.{FirstFaultsStay, SkippedLinesCountAlone, ActorsAreThere, StepsAreCounted, RoundsAreCounted};

use crate::schedule_drafts::Draft;
use crate::schedule_faults::ScheduleKind;

/// The actors of each schedule that is read are there, and its steps and rounds are within their limits.
pub fn read_schedules_are_bounded()
    ensures there { ActorsAreThere }
    ensures steps { StepsAreCounted }
    ensures rounds { RoundsAreCounted }
{}

/// A fault on one of the first lines of a text, some of which are not skipped, is that of each text that begins with these lines,
/// except that `rounds` is missing.
pub fn first_schedule_faults_stay()
    ensures { FirstFaultsStay }
{
    sb_text::first_faults_stay::<Draft, ScheduleKind>();
}

/// A blank or comment line may be put in anywhere below the first that is neither, and changes nothing but numbers of lines, except
/// if `rounds` is missing.
pub fn skipped_schedule_lines_count_alone()
    ensures { SkippedLinesCountAlone }
{
    sb_text::skipped_lines_count_alone::<Draft, ScheduleKind>();
}
