// Laws of script texts. None of these functions does anything: each contract is a law.
ghost use Rattle.sb_scripttext.specs.Laws.{FirstFaultsStay, SkippedLinesCountAlone, ReadArgumentsFit};
ghost use Rattle.sb_scripttext.specs.Readiness.{ReadScriptsAreReady, ReadScriptsHaveUnits};
ghost use Rattle.sb_scripttext.specs.StartLaws.{StartFaultsAreTrue};
ghost use Rattle.sb_scripttext.specs.WritingLaws.{WrittenScriptsAreRead, ReadScriptsCanBeWritten};

use crate::drafts::Draft;
use crate::faults::ScriptKind;
use sb_names::puts_are_found;
use sb_services::EventRow;
use sb_text::{
    decimals_are_read, not_utf8_place_tells, plain_lines_are_read, quoted_strings_are_read,
    quoted_tokens_are_text,
};

/// Each script that is read for well-made policies is ready for them.
pub fn read_scripts_are_ready()
    ensures { ReadScriptsAreReady }
{
    quoted_strings_are_read();
    quoted_tokens_are_text();
}

/// The strings of the calls of each script that is read are made of units of 16 bits: they are between quotes in a text that is
/// UTF-8.
pub fn read_scripts_have_units()
    ensures { ReadScriptsHaveUnits }
{
    quoted_strings_are_read();
    quoted_tokens_are_text();
}

/// The arguments that are read for a call fit it, so that a call is too big only for its block.
pub fn read_arguments_fit()
    ensures { ReadArgumentsFit }
{}

/// A fault on one of the first lines of a text, not all of which are blank or comments, is that of each text that begins with these
/// lines, except that a target or a channel that is not there is looked for last.
pub fn first_faults_stay()
    ensures { FirstFaultsStay }
{
    sb_text::first_faults_stay::<Draft, ScriptKind>();
}

/// A blank or comment line may be put in anywhere below the first that is neither blank nor a comment, and changes nothing but numbers of
/// lines.
pub fn skipped_lines_count_alone()
    ensures { SkippedLinesCountAlone }
{
    sb_text::lines_append();
    sb_text::written_lines_are_read();
    sb_text::skipped_lines_count_alone::<Draft, ScriptKind>();
}

/// A script that is ready for policies with short names, and whose strings, numbers and names can be written, is read back from
/// its text as itself: so each line means what it is written for.
pub fn written_scripts_are_read()
    ensures { WrittenScriptsAreRead }
{
    not_utf8_place_tells();
    plain_lines_are_read();
    quoted_strings_are_read();
    decimals_are_read();
}

/// The strings, numbers and names of each script that is read can be written. If the policies are well made it is ready for them
/// too, by `read_scripts_are_ready`.
pub fn read_scripts_can_be_written()
    ensures { ReadScriptsCanBeWritten }
{
    quoted_strings_are_read();
    quoted_tokens_are_text();
}

/// If an opening line cannot be placed in the namespace that the lines before it give, what its fault says is so there: its name is
/// taken among the objects of its service, or the name is free and its parent is not there, or the name is free and its parent is
/// a file.
#[tactic(auto, using(crate::proofs::StartReasons::start_faults_true))]
pub fn start_faults_are_true()
    ensures { StartFaultsAreTrue }
{
    puts_are_found::<u64>();
    puts_are_found::<EventRow>();
}
