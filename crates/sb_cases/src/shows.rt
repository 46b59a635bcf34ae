// What is printed of how a case ended.

use sb_book::Report;
use sb_message::{Refusal, Status, TextFault, message};
use sb_plain::Outcome;
use sb_rows::{Page, RowFault, Shown};
use std::alloc::Global;
use std::fmt::Debug;

/// Puts how a case ended: the exit code, the count of reads and the counts of the report, if there is one, and then the line
/// that the program would put on standard error.
pub fn put_outcome(
    alloc: Global,
    outcome: &Outcome<'_>,
    reads: u64,
    shown: Shown,
    page: &mut Page,
) -> Result<(), RowFault> {
    let status = outcome.status;
    put_exit(
        alloc,
        &outcome.report,
        (status.exit_code(), reads),
        shown,
        page,
    )?;
    if !matches!(status, Status::Done) {
        put_complaint(alloc, status, page)?;
    }
    if shown.status {
        put_fault(alloc, status, page)?;
    }
    Ok(())
}

// Puts the exit code, and besides it the count of reads and the counts of the report if these are shown.
fn put_exit(
    alloc: Global,
    report: &Option<Report>,
    numbers: (u8, u64),
    shown: Shown,
    page: &mut Page,
) -> Result<(), RowFault> {
    let (code, reads) = numbers;
    if shown.quiet {
        return Ok(page.put_line(format!(in alloc; "exit {code}")?.as_str())?);
    }
    let counts = counts(alloc, report)?;
    Ok(page.put_line(format!(in alloc; "exit {code} reads {reads}{counts}")?.as_str())?)
}

fn put_complaint(alloc: Global, status: Status, page: &mut Page) -> Result<(), RowFault> {
    Ok(page.put_line(format!(in alloc; "sandbox: {status}")?.as_str())?)
}

// Puts the status with the fault of a file that it says.
fn put_fault(alloc: Global, status: Status, page: &mut Page) -> Result<(), RowFault> {
    let Status::Refused(Refusal::Text { which: _, fault }) = status else {
        return Err(RowFault::UnknownRow);
    };
    match fault {
        TextFault::Policy(fault) => put_status(alloc, "PolicyRefused", &fault, page),
        TextFault::Script(fault) => put_status(alloc, "ScriptRefused", &fault, page),
        TextFault::Schedule(fault) => put_status(alloc, "ScheduleRefused", &fault, page),
        TextFault::Links(fault) => put_status(alloc, "LinksRefused", &fault, page),
        TextFault::Moves(fault) => put_status(alloc, "MovesRefused", &fault, page),
        TextFault::Transcript(_) => Err(RowFault::UnknownRow),
    }
}

fn put_status<T: Debug>(
    alloc: Global,
    name: &str,
    fault: &T,
    page: &mut Page,
) -> Result<(), RowFault> {
    Ok(page.put_line(format!(in alloc; "status {name}({fault:?})")?.as_str())?)
}

/// Puts what the program writes on standard error, each line after an exclamation mark.
pub fn put_message(
    alloc: Global,
    words: &[String],
    outcome: &Outcome<'_>,
    page: &mut Page,
) -> Result<(), RowFault> {
    let shown = outcome.shown.as_ref();
    let text = message(alloc, words, &outcome.files, outcome.status, shown)?;
    put_marked(alloc, text.as_str(), page)
}

// Puts each line of a text after an exclamation mark.
fn put_marked(alloc: Global, text: &str, page: &mut Page) -> Result<(), RowFault> {
    for line in text.lines() {
        page.put_line(format!(in alloc; "! {line}")?.as_str())?;
    }
    Ok(())
}

// How many targets, entries and results a report has.
fn counts(alloc: Global, report: &Option<Report>) -> Result<String, RowFault> {
    let Some(report) = report else {
        return Ok(String::new(alloc));
    };
    let targets = report.results.as_slice().len();
    let entries = report.entries.len();
    let results = result_count(report);
    Ok(format!(in alloc; " targets {targets} entries {entries} results {results}")?)
}

fn result_count(report: &Report) -> usize {
    let mut count = 0_usize;
    for threads in report.results.as_slice() {
        for results in threads.as_slice() {
            count = count.saturating_add(results.as_slice().len());
        }
    }
    count
}
