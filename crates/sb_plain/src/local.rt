// The command `local`: what the targets of a script do not deny themselves is run by a schedule. The denials and the transcript are put.
ghost use Rattle.std.specs.Prelude.{◌≡◌, ◌<◌, ◌^◌, ◌++◌, true, IfOk};
ghost use Rattle.std.specs.List.{list_all};
ghost use Rattle.sb_book.specs.Reports.{result_count};
ghost use Rattle.sb_local.specs.Lines.{denial_lines};
ghost use Rattle.sb_outside.specs.Outside.{joined};
ghost use Rattle.sb_statements.specs.Actors.{is_step_there};
ghost use Rattle.sb_plain.specs.Local.{LocalRunsAreSerial, local_run_end, reported_after};
ghost use Rattle.sb_plain.specs.Readings.{reported};
ghost use Rattle.sb_transcript.specs.Transcripts.{transcript};

use crate::ends::{CommandEnd, two_texts};
use crate::replay::transcript_text;
use sb_base::{Items, NoMemory};
use sb_book::{OpenedScript, Report, RunStart};
use sb_compile::Programs;
use sb_core::{Ran, run};
use sb_local::{
    LocalDenial, SentScript, denial_lines, runs_of_one_thread_are_serial, thinned_scripts_are_sound,
};
use sb_outside::Bytes;
use sb_ruletext::read_policies_are_well_made;
use sb_scripttext::{read_schedules_are_bounded, read_scripts_are_ready};
use sb_statements::{Schedule, Script};
use std::alloc::Global;

// The texts that are put: the lines of the calls that are denied, with their places in the script as it was written, and then the transcript of
// the script that is sent.
fn local_texts(
    alloc: Global,
    written: &Script,
    denied: &[LocalDenial],
    sent: &Script,
    report: &Report,
) -> Result<Items<Bytes>, NoMemory>
    requires few { result_count report.now.results < 2 ^ 62 }
    ensures { IfOk result (λ texts. joined texts ≡ denial_lines written.now denied.now ++ transcript sent.now report.now) }
{
    let transcript = transcript_text(alloc, sent, report)?;
    two_texts(alloc, denial_lines(alloc, written, denied)?, transcript)
}

// The end of a run of the script that is sent: the denials and the transcript are put if no thread is unfinished.
fn end_of_local(
    alloc: Global,
    written: &Script,
    denied: &[LocalDenial],
    sent: &Script,
    ran: Ran,
) -> Result<CommandEnd, NoMemory>
    requires few { result_count ran.report.results < 2 ^ 62 }
    ensures { IfOk result (λ end. end ≡ reported_after (denial_lines written.now denied.now) sent.now ran) }
{
    let Ran { report, unfinished } = ran;
    if let Some((target, thread)) = unfinished {
        return Ok(CommandEnd::unfinished(target, thread, report));
    }
    let texts = local_texts(alloc, written, denied, sent, &report)?;
    Ok(CommandEnd::with_report(texts, report))
}

/// The command `local`: what the targets of a script that was read do not deny themselves is run by a schedule of its actors. The lines of the calls that they deny
/// and the transcript are put.
///
/// # Errors
/// `NoMemory` if there was none for the run or the lines.
pub fn local_script(
    alloc: Global,
    opened: OpenedScript,
    schedule: &Schedule,
) -> Result<CommandEnd, NoMemory>
    requires there { list_all (is_step_there opened.script.targets) schedule.now.steps ≡ true }
    ensures { IfOk result (λ end. end ≡ reported (local_run_end opened.policies opened.script schedule.now)) }
{
    thinned_scripts_are_sound();
    let (written, kernel) = opened.into_parts();
    let judge = Programs::new(alloc, written.policies(), written.script())?;
    let sent = SentScript::new(alloc, &judge, &written)?;
    let ran = run(alloc, &judge, RunStart::of(sent.ready(), kernel), schedule)?;
    end_of_local(
        alloc,
        written.script(),
        sent.denied(),
        sent.ready().script(),
        ran,
    )
}

/// If a script has one thread, which has only calls, then the namespace after a run by `local` that leaves nothing unfinished is that of the
/// calls of the script as it was written, performed one after another. It does nothing: its contract is a law.
pub fn local_runs_are_serial()
    ensures { LocalRunsAreSerial }
{
    read_policies_are_well_made();
    read_scripts_are_ready();
    read_schedules_are_bounded();
    thinned_scripts_are_sound();
    runs_of_one_thread_are_serial();
}
