// What two policy files do differently, and which calls the rules of one decide.

use crate::policies::policies_of;
use sb_compare::{CompareFault, compare, cover_text};
use sb_cover::Budget;
use sb_rows::{RowFault, put_between};
use std::alloc::Global;

// The lines of a text, separated by semicolons.
fn told_lines(alloc: Global, text: &[u8]) -> Result<String, RowFault> {
    let Ok(text) = str::from_utf8(text) else {
        return Err(RowFault::BadWords);
    };
    let mut out = String::new(alloc);
    for line in text.lines() {
        put_between(&mut out, "; ")?;
        out.push_str(line)?;
    }
    Ok(out)
}

// What is printed if no text is written.
fn told_fault(alloc: Global, fault: &CompareFault) -> Result<String, RowFault> {
    match fault {
        CompareFault::NoMemory => Err(RowFault::NoMemory),
        CompareFault::TooComplex { .. } => Ok(String::from_str(alloc, "too complex")?),
    }
}

/// The text that tells what old and new policies do differently. The lines of both files follow their headings, separated by semicolons.
pub fn compared(alloc: Global, olds: &str, news: &str) -> Result<String, RowFault> {
    let olds = policies_of(alloc, olds)?;
    let news = policies_of(alloc, news)?;
    let mut budget = Budget::for_command();
    match compare(alloc, &olds, &news, &mut budget) {
        Ok(comparison) => told_lines(alloc, &comparison.text),
        Err(fault) => told_fault(alloc, &fault),
    }
}

/// The script with a shortest call for each rule of policies.
pub fn covered(alloc: Global, lines: &str) -> Result<String, RowFault> {
    let policies = policies_of(alloc, lines)?;
    let mut budget = Budget::for_command();
    match cover_text(alloc, &policies, &mut budget) {
        Ok(text) => told_lines(alloc, &text),
        Err(fault) => told_fault(alloc, &fault),
    }
}
