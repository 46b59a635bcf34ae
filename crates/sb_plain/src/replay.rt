// The command `replay`: a script is run under policies by its schedule, and its transcript is put line by line.
ghost use Rattle.std.specs.Prelude.{◌≡◌, ◌<◌, ◌^◌, true, IfOk};
ghost use Rattle.std.specs.List.{list_all};
ghost use Rattle.sb_book.specs.Reports.{result_count};
ghost use Rattle.sb_statements.specs.Actors.{is_step_there};
ghost use Rattle.sb_plain.specs.Readings.{reported, reported_run};
ghost use Rattle.sb_plain.specs.Replay.{run_end, whole_run};
ghost use Rattle.sb_transcript.specs.Transcripts.{transcript};

use crate::ends::CommandEnd;
use sb_base::NoMemory;
use sb_book::{OpenedScript, Report, RunStart};
use sb_compile::Programs;
use sb_core::{Ran, run};
use sb_statements::{Schedule, Script};
use sb_transcript::transcript_lines;
use std::alloc::Global;

/// The end of a run of a script: its transcript is put if no thread is unfinished.
///
/// # Errors
/// `NoMemory` if there was none for the transcript.
pub fn end_of_run(alloc: Global, script: &Script, ran: Ran) -> Result<CommandEnd, NoMemory>
    requires few { result_count ran.report.results < 2 ^ 62 }
    ensures { IfOk result (λ end. end ≡ reported_run script.now ran) }
{
    let Ran { report, unfinished } = ran;
    if let Some((target, thread)) = unfinished {
        return Ok(CommandEnd::unfinished(target, thread, report));
    }
    let lines = transcript_lines(alloc, script, &report)?;
    Ok(CommandEnd::with_transcript(lines, report))
}

/// The transcript of a run as one text.
///
/// # Errors
/// `NoMemory` if there was none for it.
pub(crate) fn transcript_text(
    alloc: Global,
    script: &Script,
    report: &Report,
) -> Result<Vec<u8>, NoMemory>
    requires few { result_count report.now.results < 2 ^ 62 }
    ensures { IfOk result (λ text. text.items ≡ transcript script.now report.now) }
{
    let lines = transcript_lines(alloc, script, report)?;
    Ok(lines.into_bytes())
}

// The run of a script by a schedule, in which calls are judged by the programs of the policies.
#[tactic(auto, unfolding(crate::specs::Replay::whole_run))]
fn run_whole(alloc: Global, start: RunStart<'_>, schedule: &Schedule) -> Result<Ran, NoMemory>
    requires there { list_all (is_step_there start.script.targets) schedule.now.steps ≡ true }
    ensures value { IfOk result (λ r. r ≡ whole_run start.entry.policies start.entry.script schedule.now) }
    ensures few { IfOk result (λ r. result_count r.report.results < 2 ^ 62) }
{
    let judge = Programs::new(alloc, start.ready().policies(), start.ready().script())?;
    run(alloc, &judge, start, schedule)
}

/// The command `replay`: a script that was read is run by a schedule of its actors, and its transcript is put line by line.
///
/// # Errors
/// `NoMemory` if there was none for the run or its transcript.
pub fn replay_script(
    alloc: Global,
    opened: OpenedScript,
    schedule: &Schedule,
) -> Result<CommandEnd, NoMemory>
    requires there { list_all (is_step_there opened.script.targets) schedule.now.steps ≡ true }
    ensures { IfOk result (λ end. end ≡ reported (run_end opened.policies opened.script schedule.now)) }
{
    let (ready, kernel) = opened.into_parts();
    let ran = run_whole(alloc, RunStart::of(&ready, kernel), schedule)?;
    end_of_run(alloc, ready.script(), ran)
}
