// The command `dup`: a script is run under policies, and then handles are passed between its targets.
ghost use Rattle.std.specs.Prelude.{◌≡◌, ◌<◌, ◌^◌, length, true, IfErr, IfOk};
ghost use Rattle.std.specs.List.{list_all};
ghost use Rattle.sb_book.specs.Histories.{setting_of};
ghost use Rattle.sb_book.specs.Reports.{result_count};
ghost use Rattle.sb_dup.specs.Lines.{is_between};
ghost use Rattle.sb_dup.specs.MoveLines.{lines_of_moves};
ghost use Rattle.sb_outside.specs.Outside.{joined};
ghost use Rattle.sb_plain.specs.Contents.{no_schedule};
ghost use Rattle.sb_plain.specs.Dup.{answers_after, moved_text, moves_end, moves_of, reported_moves};
ghost use Rattle.sb_plain.specs.Readings.{Gives, IsOfText, reported};
ghost use Rattle.sb_plain.specs.Replay.{whole_run};

use crate::driver::{LaterFile, MAX_BYTES};
use crate::ends::{CommandEnd, two_texts};
use crate::file_texts::FileText;
use crate::reading::no_schedule;
use crate::refusals::Refused;
use crate::replay::transcript_text;
use sb_base::{Items, NoMemory};
use sb_book::{OpenedScript, Report, RunStart};
use sb_compile::Programs;
use sb_core::{Ran, run};
use sb_dup::{Answered, Moves, Passing, put_moves, read_moves};
use sb_outside::Bytes;
use sb_statements::{Script, SoundScript};
use std::alloc::Global;

// The moves of a text, between targets of this script.
fn moves_of(alloc: Global, script: &SoundScript, text: FileText) -> Result<Moves, Refused>
    ensures given { Gives (λ m. m) (moves_of script.now text) result }
    ensures refused { IfErr result (λ refusal. IsOfText refusal.why) }
    ensures between { IfOk result (λ moves. list_all (is_between (length script.now.targets)) moves ≡ true) }
{
    match read_moves(alloc, text.bytes(), script) {
        Ok(moves) => Ok(moves),
        Err(refused) => Err(text.refused(refused)),
    }
}

/// The file after the script has moves between its targets.
pub struct MovesFile;

impl LaterFile for MovesFile {
    type Value = Moves;

    ghost use Rattle.std.specs.Prelude.{◌≡◌, length, true};
    ghost use Rattle.std.specs.List.{list_all};
    ghost use Rattle.sb_dup.specs.Lines.{is_between};
    ghost use Rattle.sb_plain.specs.Contents.{most_bytes};
    ghost use Rattle.sb_plain.specs.Dup.{moves_of};
    ghost use Rattle.sb_plain.specs.ScriptEnds.{is_named, needed};

    ghost most = { λ _. most_bytes };

    ghost reads = { λ _ script. needed (moves_of script) };

    ghost named = { λ _. is_named };

    ghost suits = { λ _ script moves. list_all (is_between (length script.targets)) moves ≡ true };

    fn most_bytes(&self) -> u64 {
        MAX_BYTES
    }

    fn read(
        &self,
        alloc: Global,
        script: &SoundScript,
        text: Option<FileText>,
    ) -> Result<Moves, Refused> {
        match text {
            Some(text) => moves_of(alloc, script, text),
            None => Err(Refused::missing(3)),
        }
    }
}

// How moves are answered after a run, one after another, from the namespace and the handles that it reports.
fn answers_after(
    alloc: Global,
    judge: &Programs<'_>,
    moves: &Moves,
    report: &Report,
) -> Result<Answered, NoMemory>
    requires between { list_all (is_between (length judge.now.policies)) moves.now ≡ true }
    ensures { IfOk result (λ done. done ≡ answers_after judge.now.policies moves.now report.now) }
{
    let mut passing = Passing::new(alloc, &report.kernel)?;
    passing.apply_each(alloc, judge, moves.as_slice())
}

// The lines of moves with their answers, and their totals.
fn move_lines(alloc: Global, script: &Script, answers: &Answered) -> Result<Vec<u8>, NoMemory>
    ensures { IfOk result (λ text. text.items ≡ lines_of_moves script.now answers.now) }
{
    let mut moved = Vec::new(alloc);
    put_moves(&mut moved, script, answers)?;
    Ok(moved)
}

// The transcript of a run, and the lines of the moves after it.
#[tactic(auto, unfolding(crate::specs::Dup::moved_text))]
fn texts_after(
    alloc: Global,
    judge: &Programs<'_>,
    script: &Script,
    moves: &Moves,
    report: &Report,
) -> Result<Items<Bytes>, NoMemory>
    requires between { list_all (is_between (length judge.now.policies)) moves.now ≡ true }
    requires few { result_count report.now.results < 2 ^ 62 }
    ensures { IfOk result (λ texts. joined texts ≡ moved_text judge.now.policies script.now moves.now report.now) }
{
    let answers = answers_after(alloc, judge, moves, report)?;
    let moved = move_lines(alloc, script, &answers)?;
    two_texts(alloc, transcript_text(alloc, script, report)?, moved)
}

// The end of a run that moves follow: they are made, and the texts are put, if no thread is unfinished.
fn end_of_moves(
    alloc: Global,
    judge: &Programs<'_>,
    script: &Script,
    moves: &Moves,
    ran: Ran,
) -> Result<CommandEnd, NoMemory>
    requires between { list_all (is_between (length judge.now.policies)) moves.now ≡ true }
    requires few { result_count ran.report.results < 2 ^ 62 }
    ensures { IfOk result (λ end. end ≡ reported_moves judge.now.policies script.now moves.now ran) }
{
    let Ran { report, unfinished } = ran;
    if let Some((target, thread)) = unfinished {
        return Ok(CommandEnd::unfinished(target, thread, report));
    }
    let texts = texts_after(alloc, judge, script, moves, &report)?;
    Ok(CommandEnd::with_report(texts, report))
}

// The run of a script without a schedule, in which calls are judged by these programs.
fn run_unscheduled(
    alloc: Global,
    judge: &Programs<'_>,
    start: RunStart<'_>,
) -> Result<Ran, NoMemory>
    requires judge { judge.now.policies ≡ (setting_of start.policies start.script).policies }
    ensures value { IfOk result (λ r. r ≡ whole_run start.entry.policies start.entry.script no_schedule) }
    ensures few { IfOk result (λ r. result_count r.report.results < 2 ^ 62) }
{
    run(alloc, judge, start, &no_schedule(alloc))
}

/// The command `dup`: a script that was read is run without a schedule, and then handles are passed between its targets as the moves say. The transcript and the
/// lines of the moves are put.
///
/// # Errors
/// `NoMemory` if there was none for the run, the moves or the lines.
pub fn dup_script(
    alloc: Global,
    opened: OpenedScript,
    moves: &Moves,
) -> Result<CommandEnd, NoMemory>
    requires between { list_all (is_between (length opened.script.targets)) moves.now ≡ true }
    ensures { IfOk result (λ end. end ≡ reported (moves_end opened.policies opened.script moves.now)) }
{
    let (ready, kernel) = opened.into_parts();
    let judge = Programs::new(alloc, ready.policies(), ready.script())?;
    let ran = run_unscheduled(alloc, &judge, RunStart::of(&ready, kernel))?;
    end_of_moves(alloc, &judge, ready.script(), moves, ran)
}
