// The transcript of a report of 4,096 calls, made and put into memory.
ghost use Rattle.std.specs.Prelude.{◌<◌, ◌^◌, length, IfOk};
ghost use Rattle.sb_book.specs.Reports.{result_count};

use crate::answering::answered;
use crate::copies::copies;
use crate::inputs::statements_of;
use sb_base::NoMemory;
use sb_book::{AllWords, EntrySlice, ReadyScript, Report, Results, TargetResults, ThreadResults};
use sb_outside::MemSink;
use sb_rows::RowFault;
use sb_statements::{CallResult, Script, StmtResult};
use sb_transcript::{LineBuffer, transcript_lines};
use std::alloc::Global;

// How many calls the report has.
const CALLS: u64 = 4096;

/// Answers the calls by a new book, and then makes and puts the transcript of its report, in these rounds. It says how many lines
/// the last round put.
pub fn transcripts(alloc: Global, inputs: &ReadyScript, rounds: u64) -> Result<String, RowFault> {
    let report = report_of_calls(alloc, inputs)?;
    let mut lines = 0;
    for _round in 0..rounds {
        lines = put_once(alloc, inputs.script(), &report)?;
    }
    Ok(format!(in alloc; "lines {lines}")?)
}

// The report of a thread whose calls a new book answered.
fn report_of_calls(alloc: Global, inputs: &ReadyScript) -> Result<Report, RowFault>
    ensures { IfOk result (λ report. result_count report.results < 2 ^ 62) }
{
    let copies = copies(alloc, statements_of(inputs.script(), 0))?;
    let book = answered(alloc, inputs, &copies, CALLS)?;
    let (entries, kernel) = book.into_parts();
    let results = results_of(alloc, entries.as_slice())?;
    Ok(Report {
        entries,
        results,
        words: AllWords::new(Vec::new(alloc)),
        kernel,
    })
}

// The results of one thread whose calls these entries answered.
fn results_of(alloc: Global, entries: EntrySlice<'_>) -> Result<Results, RowFault>
    ensures { IfOk result (λ results. result_count results < 2 ^ 62) }
{
    let mut replies = Vec::new(alloc);
    for place in 0..entries.len() {
        if let Some(entry) = entries.get(place) {
            replies.push(StmtResult::Call(CallResult::Reply {
                channel: entry.channel(),
                reply: entry.reply().copy(),
            }))?;
        }
    }
    if replies.len() as u64 > CALLS {
        return Err(RowFault::BadWords);
    }
    Ok(single_thread(alloc, ThreadResults::new(replies))?)
}

// These results of one thread as those of all.
#[tactic(auto, using(crate::proofs::Counts::of_single_thread))]
fn single_thread(alloc: Global, replies: ThreadResults) -> Result<Results, NoMemory>
    requires { length replies < 2 ^ 62 }
    ensures { IfOk result (λ results. result_count results < 2 ^ 62) }
{
    let mut threads = Vec::new(alloc);
    threads.push(replies)?;
    let mut targets = Vec::new(alloc);
    targets.push(TargetResults::new(threads))?;
    Ok(Results::new(targets))
}

// Makes the transcript and puts it into memory, line by line. It gives the number of lines.
fn put_once(alloc: Global, script: &Script, report: &Report) -> Result<usize, RowFault>
    requires { result_count report.now.results < 2 ^ 62 }
{
    put_lines(alloc, &transcript_lines(alloc, script, report)?)
}

// Puts lines into memory, and gives how many they are.
fn put_lines(alloc: Global, lines: &LineBuffer) -> Result<usize, RowFault> {
    let room = lines.bytes().len() as u64;
    let mut sink = MemSink::with_room(alloc, room, Vec::new(alloc))?;
    match lines.put_each(&mut sink) {
        Ok(()) => Ok(line_count(sink.written())),
        Err(_) => Err(RowFault::NotInRange),
    }
}

fn line_count(bytes: &[u8]) -> usize {
    let mut count: usize = 0;
    for byte in bytes {
        count = count.wrapping_add(usize::from(*byte == b'\n'));
    }
    count
}
