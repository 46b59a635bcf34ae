// The whole transcript, in one buffer.
ghost use Rattle.std.specs.Prelude.{◌≡◌, ◌++◌, ◌∷◌, ◌<◌, ◌^◌, [], length, IfOk, OnOk};
ghost use Rattle.sb_book.specs.Reports.{result_count};
ghost use Rattle.sb_transcript.specs.EntryLines.{entry_line};
ghost use Rattle.sb_transcript.specs.LineBuffers.{cut_by, total};
ghost use Rattle.sb_transcript.specs.Fields.{ended};
ghost use Rattle.sb_transcript.specs.ResultLines.{result_line};
ghost use Rattle.sb_transcript.specs.declared.read_lines.Line.TheVariants.{Totals};
ghost use Rattle.sb_transcript.specs.Transcripts.{entry_lines, thread_lines, target_lines, result_lines, transcript_lines};

use crate::counts::{result_count, shown_totals};
use crate::line_buffers::LineBuffer;
use crate::places::Place;
use crate::read_lines::TotalsLine;
use crate::writing::{put_entry_line, put_result_line, put_totals_line};
use sb_base::NoMemory;
use sb_book::{Entries, EntryView, Report, TargetResults, ThreadResults};
use sb_statements::{Script, StmtResult};
use std::alloc::Global;

// For how many bytes of each line room is made at once. Most lines have fewer.
const LINE_BYTES: usize = 96;

// Appends the line of an entry, and notes its length.
#[tactic(auto, using(crate::proofs::CutLaws::cut_more, crate::proofs::CutLaws::total_more))]
fn put_entry(
    bytes: &mut Vec<u8>,
    lengths: &mut Vec<usize>,
    script: &Script,
    n: u64,
    entry: &EntryView<'_>,
) -> Result<(), NoMemory>
    requires { total lengths.old.items ≡ length bytes.old.items }
    ensures whole { OnOk result (total lengths.new.items ≡ length bytes.new.items) }
    ensures lines { OnOk result (cut_by lengths.new.items bytes.new.items ≡ cut_by lengths.old.items bytes.old.items
        ++ entry_line script.now n entry.now ∷ []) }
{
    let before = bytes.len();
    put_entry_line(bytes, script, n, entry)?;
    lengths.push(bytes.len() - before)?;
    Ok(())
}

// Appends the lines of entries.
fn put_entry_lines(
    bytes: &mut Vec<u8>,
    lengths: &mut Vec<usize>,
    script: &Script,
    entries: &Entries,
) -> Result<(), NoMemory>
    requires { total lengths.old.items ≡ length bytes.old.items }
    ensures whole { OnOk result (total lengths.new.items ≡ length bytes.new.items) }
    ensures lines { OnOk result (cut_by lengths.new.items bytes.new.items ≡ cut_by lengths.old.items bytes.old.items
        ++ entry_lines script.now 0 entries.now) }
{
    let count = entries.len() as u64;
    let mut n = 0;
    let mut rest = entries.as_slice();
    while let Some((entry, later)) = rest.split_first() {
        put_entry(bytes, lengths, script, n, &entry)?;
        n += 1;
        rest = later;
    }
    Ok(())
}

// Appends the line of a result, and notes its length.
#[tactic(auto, using(crate::proofs::CutLaws::cut_more, crate::proofs::CutLaws::total_more))]
fn put_result(
    bytes: &mut Vec<u8>,
    lengths: &mut Vec<usize>,
    script: &Script,
    at: &Place<'_>,
) -> Result<(), NoMemory>
    requires { total lengths.old.items ≡ length bytes.old.items }
    ensures whole { OnOk result (total lengths.new.items ≡ length bytes.new.items) }
    ensures lines { OnOk result (cut_by lengths.new.items bytes.new.items ≡ cut_by lengths.old.items bytes.old.items
        ++ result_line script.now at.now.target at.now.thread at.now.place at.now.result_.now ∷ []) }
{
    let before = bytes.len();
    put_result_line(bytes, script, at.target, at.thread, at.place, at.result_)?;
    lengths.push(bytes.len() - before)?;
    Ok(())
}

// Appends the lines of a thread.
fn put_thread_lines(
    bytes: &mut Vec<u8>,
    lengths: &mut Vec<usize>,
    script: &Script,
    target: usize,
    thread: usize,
    results: &[StmtResult],
) -> Result<(), NoMemory>
    requires { total lengths.old.items ≡ length bytes.old.items }
    ensures whole { OnOk result (total lengths.new.items ≡ length bytes.new.items) }
    ensures lines { OnOk result (cut_by lengths.new.items bytes.new.items ≡ cut_by lengths.old.items bytes.old.items
        ++ thread_lines script.now target thread 0 results.now) }
{
    for (place, result_) in results.iter().enumerate() {
        let at = Place {
            target,
            thread,
            place,
            result_,
        };
        put_result(bytes, lengths, script, &at)?;
    }
    Ok(())
}

// Appends the lines of a target.
fn put_target_lines(
    bytes: &mut Vec<u8>,
    lengths: &mut Vec<usize>,
    script: &Script,
    target: usize,
    threads: &[ThreadResults],
) -> Result<(), NoMemory>
    requires { total lengths.old.items ≡ length bytes.old.items }
    ensures whole { OnOk result (total lengths.new.items ≡ length bytes.new.items) }
    ensures lines { OnOk result (cut_by lengths.new.items bytes.new.items ≡ cut_by lengths.old.items bytes.old.items
        ++ target_lines script.now target 0 threads.now) }
{
    for (thread, results) in threads.iter().enumerate() {
        put_thread_lines(bytes, lengths, script, target, thread, results.as_slice())?;
    }
    Ok(())
}

// Appends the lines of all results.
fn put_result_lines(
    bytes: &mut Vec<u8>,
    lengths: &mut Vec<usize>,
    script: &Script,
    targets: &[TargetResults],
) -> Result<(), NoMemory>
    requires { total lengths.old.items ≡ length bytes.old.items }
    ensures whole { OnOk result (total lengths.new.items ≡ length bytes.new.items) }
    ensures lines { OnOk result (cut_by lengths.new.items bytes.new.items ≡ cut_by lengths.old.items bytes.old.items
        ++ result_lines script.now 0 targets.now) }
{
    for (target, threads) in targets.iter().enumerate() {
        put_target_lines(bytes, lengths, script, target, threads.as_slice())?;
    }
    Ok(())
}

// Appends the totals, and notes their length.
#[tactic(auto, using(crate::proofs::CutLaws::cut_more, crate::proofs::CutLaws::total_more))]
fn put_totals(
    bytes: &mut Vec<u8>,
    lengths: &mut Vec<usize>,
    totals: &TotalsLine,
) -> Result<(), NoMemory>
    requires { total lengths.old.items ≡ length bytes.old.items }
    ensures whole { OnOk result (total lengths.new.items ≡ length bytes.new.items) }
    ensures lines { OnOk result (cut_by lengths.new.items bytes.new.items ≡ cut_by lengths.old.items bytes.old.items
        ++ ended (Totals totals.now) ∷ []) }
{
    let before = bytes.len();
    put_totals_line(bytes, totals)?;
    lengths.push(bytes.len() - before)?;
    Ok(())
}

/// The lines of the transcript, each with its LF, in one growing buffer: one for each entry in order, one for each result by
/// target, thread and place, and the totals.
///
/// # Errors
/// `NoMemory` if there was none for the lines.
pub fn transcript_lines(
    alloc: Global,
    script: &Script,
    report: &Report,
) -> Result<LineBuffer, NoMemory>
    requires { result_count report.now.results < 2 ^ 62 }
    ensures { IfOk result (λ lines. lines ≡ transcript_lines script.now report.now) }
{
    let count = report
        .entries
        .len()
        .saturating_add(result_count(report.results.as_slice()));
    let mut bytes = Vec::new(alloc);
    let mut lengths = Vec::new(alloc);
    // If there is no memory for all at once the buffers grow as lines are put.
    let _bytes = bytes.reserve(count.saturating_mul(LINE_BYTES));
    let _lengths = lengths.reserve(count.saturating_add(1));
    put_entry_lines(&mut bytes, &mut lengths, script, &report.entries)?;
    put_result_lines(&mut bytes, &mut lengths, script, report.results.as_slice())?;
    put_totals(&mut bytes, &mut lengths, &shown_totals(report))?;
    Ok(LineBuffer { bytes, lengths })
}
