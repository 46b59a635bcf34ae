// Table tests of explained decisions: one call under rules, and the entries of a run.

use crate::inputs::{policies_of_second_version, ready_script, schedule_of, text_of_script};
use crate::plays::core_report;
use sb_explain::{ScriptLines, judge_text, statement_lines, why_text};
use sb_rows::{RowFault, call, number, put_between, put_word};
use std::alloc::Global;

/// What a function of explained decisions gives.
pub fn value_of(alloc: Global, name: &str, parts: &[&str]) -> Result<String, RowFault> {
    match parts {
        [rules, text] if name == "judge_text" => judged(alloc, rules, text),
        [script, schedule, entry] if name == "why_text" => why(alloc, script, schedule, entry),
        _ => Err(RowFault::Unknown),
    }
}

// What is told of a call under these rules of a policy of version 2.
fn judged(alloc: Global, rules: &str, text: &str) -> Result<String, RowFault> {
    let policies = policies_of_second_version(alloc, rules)?;
    let (tag, args) = call(alloc, text)?;
    let [policy, ..] = policies.policies().list.as_slice() else {
        return Err(RowFault::BadPolicy);
    };
    let told = judge_text(alloc, policy, tag, args.as_slice())?;
    in_one_line(alloc, &told)
}

// What is told of the entries of a run by a schedule, or of the one with this number.
fn why(alloc: Global, script: &str, schedule: &str, entry: &str) -> Result<String, RowFault> {
    let text = text_of_script(alloc, script)?;
    let ready = ready_script(alloc, text.as_str())?;
    let schedule = schedule_of(alloc, schedule, ready.script())?;
    let report = core_report(alloc, &ready, &schedule)?;
    let lines = lines_of(alloc, text.as_str().as_bytes())?;
    let explained = ScriptLines {
        ready: &ready,
        lines: &lines,
    };
    let told = why_text(alloc, explained, &report.entries, asked(entry)?)?;
    in_one_line(alloc, &told)
}

// The lines of the statements of a script.
fn lines_of(alloc: Global, text: &[u8]) -> Result<Vec<u32>, RowFault> {
    if text.len() > 4_194_304 {
        return Err(RowFault::TooMany);
    }
    Ok(statement_lines(alloc, text)?)
}

// The number of an entry, or None for all.
fn asked(entry: &str) -> Result<Option<u64>, RowFault> {
    if entry.is_empty() {
        Ok(None)
    } else {
        Ok(Some(number(entry)?))
    }
}

// The lines of a text, with semicolons in place of the LFs between them.
fn in_one_line(alloc: Global, text: &[u8]) -> Result<String, RowFault> {
    let mut out = String::new(alloc);
    for line in text.split(|byte| *byte == b'\n') {
        if !line.is_empty() {
            put_between(&mut out, ";")?;
            put_word(&mut out, line)?;
        }
    }
    Ok(out)
}
