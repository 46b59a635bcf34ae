// The transcript's lines, one by one.
ghost use Rattle.std.specs.Prelude.{◌≡◌, ◌<◌, ◌^◌, Some, IfOk, slice_get};
ghost use Rattle.sb_book.specs.Reports.{result_count};
ghost use Rattle.sb_transcript.specs.EntryLines.{entry_line};
ghost use Rattle.sb_transcript.specs.ResultLines.{result_line};
ghost use Rattle.sb_transcript.specs.Totals.{totals_line};
ghost use Rattle.sb_transcript.specs.Transcripts.{line_count, transcript_lines};

use crate::counts::{result_count, shown_totals};
use crate::laws::{entries_come_first, results_follow, totals_end};
use crate::places::{Place, place_of};
use crate::writing::{put_entry_line, put_result_line, put_totals_line};
use sb_base::NoMemory;
use sb_book::{EntryView, Report};
use sb_statements::{Script, StmtResult};
use std::alloc::Global;

/// How many lines the transcript has: one for each entry, one for each result, and the totals.
pub fn line_count(report: &Report) -> u64
    requires { result_count report.now.results < 2 ^ 62 }
    ensures { result ≡ line_count report.now }
{
    let entries = report.entries.len() as u64;
    let results = result_count(report.results.as_slice()) as u64;
    entries + results + 1
}

/// Line `n` of the transcript, counted from 0, with its LF. No other line is made. An entry's line is made from the entry
/// alone; to a result it goes past whole targets and threads.
///
/// # Errors
/// `NoMemory` if there was none for the line.
#[tactic(auto, using(crate::proofs::LineLaws::result_line_at))]
pub fn line(alloc: Global, script: &Script, report: &Report, n: u64) -> Result<Vec<u8>, NoMemory>
    requires few { result_count report.now.results < 2 ^ 62 }
    requires within { n < line_count report.now }
    ensures { IfOk result (λ line. slice_get (transcript_lines script.now report.now) n ≡ Some line.items) }
{
    // By these laws each line is an entry's, a result's or the totals.
    entries_come_first();
    results_follow();
    totals_end();
    let entries = report.entries.as_slice();
    let at = n as usize;
    if let Some(entry) = entries.get(at) {
        return entry_line(alloc, script, n, &entry);
    }
    let Some(place) = place_of(&report.results, at - entries.len()) else {
        return totals(alloc, report);
    };
    line_at(alloc, script, &place)
}

/// The line of entry `n` of a history, counted from 0, with its LF.
///
/// # Errors
/// `NoMemory` if there was none for the line.
pub fn entry_line(
    alloc: Global,
    script: &Script,
    n: u64,
    entry: &EntryView<'_>,
) -> Result<Vec<u8>, NoMemory>
    ensures { IfOk result (λ line. line.items ≡ entry_line script.now n entry.now) }
{
    let mut line = Vec::new(alloc);
    put_entry_line(&mut line, script, n, entry)?;
    Ok(line)
}

/// The line of the result of the statement at a place of a thread of a target, with its LF. All three are numbered from 0.
///
/// # Errors
/// `NoMemory` if there was none for the line.
pub fn result_line(
    alloc: Global,
    script: &Script,
    target: u32,
    thread: u32,
    place: u32,
    result_: &StmtResult,
) -> Result<Vec<u8>, NoMemory>
    ensures { IfOk result (λ line. line.items ≡ result_line script.now target thread place result_.now) }
{
    let place = Place {
        target: target as usize,
        thread: thread as usize,
        place: place as usize,
        result_,
    };
    line_at(alloc, script, &place)
}

// The line of a result that is there.
fn line_at(alloc: Global, script: &Script, at: &Place<'_>) -> Result<Vec<u8>, NoMemory>
    ensures { IfOk result (λ line. line.items ≡ result_line script.now at.now.target at.now.thread at.now.place at.now.result_.now) }
{
    let mut line = Vec::new(alloc);
    put_result_line(
        &mut line, script, at.target, at.thread, at.place, at.result_,
    )?;
    Ok(line)
}

/// The last line: how many entries there are, how many of each decision, and how many results, with its LF.
///
/// # Errors
/// `NoMemory` if there was none for the line.
pub fn totals(alloc: Global, report: &Report) -> Result<Vec<u8>, NoMemory>
    requires { result_count report.now.results < 2 ^ 62 }
    ensures { IfOk result (λ line. line.items ≡ totals_line report.now) }
{
    let mut line = Vec::new(alloc);
    put_totals_line(&mut line, &shown_totals(report))?;
    Ok(line)
}
