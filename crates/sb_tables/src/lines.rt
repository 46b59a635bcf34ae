// Table tests of the transcript's lines, one by one.

use crate::inputs::{inputs_of, schedule_of};
use crate::plays::core_report;
use sb_rows::{RowFault, number, put_word};
use sb_transcript::{line, line_count};
use std::alloc::Global;

/// One line of the transcript of a script by a schedule of its actors, and how many lines there are.
pub fn told_line(alloc: Global, parts: &[&str]) -> Result<String, RowFault> {
    let [script, schedule, place] = parts else {
        return Err(RowFault::Unknown);
    };
    let inputs = inputs_of(alloc, script)?;
    let schedule = schedule_of(alloc, schedule, inputs.script())?;
    let report = core_report(alloc, &inputs, &schedule)?;
    let place = number(place)?;
    if place >= line_count(&report) {
        return Err(RowFault::NotInRange);
    }
    let line = line(alloc, inputs.script(), &report, place)?;
    told_bytes(alloc, line.as_slice())
}

// The bytes of a line without the LF at its end.
fn told_bytes(alloc: Global, line: &[u8]) -> Result<String, RowFault> {
    let [text @ .., b'\n'] = line else {
        return Err(RowFault::BadText);
    };
    let mut out = String::new(alloc);
    put_word(&mut out, text)?;
    Ok(out)
}
