// How words, entries, results and workers are shown.

use sb_actor::WorkerState;
use sb_book::{EntrySlice, EntryView, Report, TargetResults, ThreadResults, WordList};
use sb_rows::{RowFault, put_word};
use sb_statements::Script;
use sb_transcript::{entry_line, result_line};
use std::alloc::Global;

/// Appends the words that changed since the start, by target, channel and place, where place 0 is the state.
pub fn put_words(out: &mut String, words: &[WordList]) -> Result<(), RowFault> {
    out.push_str("words")?;
    for (target, words) in words.iter().enumerate() {
        for (at, word) in words.as_slice().iter().enumerate() {
            let (channel, place) = (at / 65, at % 65);
            if *word != u64::from(place == 0) {
                write!(out, " {target}.{channel}.{place}={word}")?;
            }
        }
    }
    out.push('\n')?;
    Ok(())
}

/// Appends the lines of entries.
pub fn put_entries(
    alloc: Global,
    out: &mut String,
    script: &Script,
    entries: EntrySlice<'_>,
) -> Result<(), RowFault> {
    for place in 0..entries.len() {
        if let Some(entry) = entries.get(place) {
            put_entry(alloc, out, script, place as u64, &entry)?;
        }
    }
    Ok(())
}

// Appends the line of an entry.
fn put_entry(
    alloc: Global,
    out: &mut String,
    script: &Script,
    place: u64,
    entry: &EntryView<'_>,
) -> Result<(), RowFault> {
    put_line(out, &entry_line(alloc, script, place, entry)?)
}

// Appends a line of a transcript.
fn put_line(out: &mut String, line: &[u8]) -> Result<(), RowFault> {
    out.push_str("  ")?;
    put_word(out, line)
}

// Appends the lines of the results of a thread.
fn put_thread(
    alloc: Global,
    out: &mut String,
    script: &Script,
    thread: (u32, u32),
    results: &ThreadResults,
) -> Result<(), RowFault> {
    let mut place: u32 = 0;
    for ended in results.as_slice() {
        put_line(
            out,
            &result_line(alloc, script, thread.0, thread.1, place, ended)?,
        )?;
        place = place.saturating_add(1);
    }
    Ok(())
}

/// Appends the lines of results.
pub fn put_results(
    alloc: Global,
    out: &mut String,
    script: &Script,
    results: &[TargetResults],
) -> Result<(), RowFault> {
    let mut target: u32 = 0;
    for threads in results {
        let mut thread: u32 = 0;
        for results in threads.as_slice() {
            put_thread(alloc, out, script, (target, thread), results)?;
            thread = thread.saturating_add(1);
        }
        target = target.saturating_add(1);
    }
    Ok(())
}

/// Words, entries and results of a report.
pub fn shown(alloc: Global, script: &Script, report: &Report) -> Result<String, RowFault> {
    let mut out = String::new(alloc);
    put_words(&mut out, report.words.as_slice())?;
    put_entries(alloc, &mut out, script, report.entries.as_slice())?;
    put_results(alloc, &mut out, script, report.results.as_slice())?;
    Ok(out)
}

/// Appends where each worker is.
pub fn put_workers(out: &mut String, workers: &[WorkerState]) -> Result<(), RowFault> {
    for worker in workers {
        let (target, channel) = (worker.target(), worker.channel());
        let (looking, copied) = (worker.looking(), worker.taken().is_some());
        write!(
            out,
            "  worker {target} channel {channel} looking {looking} copied {copied}\n"
        )?;
    }
    Ok(())
}
