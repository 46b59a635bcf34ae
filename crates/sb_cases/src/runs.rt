// A case is run, and what came of it is printed.

use crate::shows::{put_message, put_outcome};
use sb_outside::{Bytes, MemFiles, MemSink, StoredFile, Text};
use sb_plain::Outcome;
use sb_rows::{Case, CaseText, MeetingGate, Page, RowFault};
use sb_top::broker_top;
use std::alloc::Global;
use std::sync::Wait;
use std::thread::Threads;

/// Runs the case that is due, once for each row that is tried, or else once. The next case may take over the files of the last run, and
/// what it wrote.
pub fn run_case<R: Threads + Wait + Sync>(
    rt: &R,
    alloc: Global,
    cases: &mut CaseText<'_>,
    page: &mut Page,
) -> Result<(), RowFault> {
    let rows = cases.take_rows(alloc);
    run_rows(rt, alloc, cases, rows.as_slice(), page)?;
    cases.end_case(alloc);
    Ok(())
}

fn run_rows<R: Threads + Wait + Sync>(
    rt: &R,
    alloc: Global,
    cases: &mut CaseText<'_>,
    rows: &[&str],
    page: &mut Page,
) -> Result<(), RowFault> {
    if let Some(name) = rows.first() {
        page.put_line(name)?;
    }
    let mut tries = false;
    for row in rows {
        if let Some(tried) = row.strip_prefix("try ") {
            page.put_line(row)?;
            run_once(rt, alloc, cases, rows, Some(tried), page)?;
            tries = true;
        }
    }
    match tries {
        true => Ok(()),
        false => run_once(rt, alloc, cases, rows, None, page),
    }
}

fn run_once<R: Threads + Wait + Sync>(
    rt: &R,
    alloc: Global,
    cases: &mut CaseText<'_>,
    rows: &[&str],
    tried: Option<&str>,
    page: &mut Page,
) -> Result<(), RowFault> {
    let mut case = cases.case_of(alloc, rows, tried)?;
    let mut files = case.take_files(alloc)?;
    let mut out = case.sink(alloc)?;
    run(rt, alloc, &case, &mut files, &mut out, page)?;
    case.put_written(alloc, out.written(), page)?;
    cases.keep_files(kept(alloc, files, out.written())?);
    Ok(())
}

// Runs the command, and puts how it ended and what passed the gate.
fn run<R: Threads + Wait + Sync>(
    rt: &R,
    alloc: Global,
    case: &Case,
    files: &mut MemFiles,
    out: &mut MemSink,
    page: &mut Page,
) -> Result<(), RowFault> {
    let meeting = case.meeting();
    let gate = MeetingGate::new(alloc, meeting.targets, meeting.turns)?;
    let outcome = outcome_of(rt, alloc, case.words(), files, out, &gate);
    put_end(alloc, case, &outcome, files.calls, page)?;
    match meeting.targets {
        0 => Ok(()),
        _ => gate.put_counts(alloc, page),
    }
}

// How the command of these arguments ends.
fn outcome_of<'a, R: Threads + Wait + Sync>(
    rt: &R,
    alloc: Global,
    words: &'a [String],
    files: &mut MemFiles,
    out: &mut MemSink,
    gate: &MeetingGate,
) -> Outcome<'a> {
    broker_top(rt, alloc, words, files, out, gate)
}

// Puts how a command ended, and what it writes on standard error if the case shows that.
fn put_end(
    alloc: Global,
    case: &Case,
    outcome: &Outcome<'_>,
    reads: u64,
    page: &mut Page,
) -> Result<(), RowFault> {
    put_outcome(alloc, outcome, reads, case.shown(), page)?;
    match case.shown().told {
        true => put_message(alloc, case.words(), outcome, page),
        false => Ok(()),
    }
}

// The files of a case, and after them one of the name `written` with what it wrote.
fn kept(alloc: Global, files: MemFiles, written: &[u8]) -> Result<Vec<StoredFile>, RowFault> {
    let mut files = files.files.into_items();
    files.push(StoredFile {
        name: Text::new(String::from_str(alloc, "written")?),
        content: Bytes::new(Vec::from_slice(alloc, written)?),
    })?;
    Ok(files)
}
