// Statuses that no case leads to.

use sb_message::{Refusal, Status, TextFault};
use sb_rows::{Page, RowFault};
use sb_ruletext::{PolicyFault, PolicyFaultKind, PolicyLimit};
use sb_scripttext::{ScheduleFault, ScheduleKind, ScriptFault, ScriptKind, StartFault};
use std::alloc::Global;

/// Puts the exit code of the status that the row names, and what is said of it.
pub fn put_far(alloc: Global, row: &str, page: &mut Page) -> Result<(), RowFault> {
    let status = status_of(row)?;
    let code = status.exit_code();
    page.put_line(format!(in alloc; "{row} => exit {code} sandbox: {status}")?.as_str())?;
    Ok(())
}

// The status that a row names: a fault in the last line that has a number, a thread that did not end, or out of memory.
fn status_of(row: &str) -> Result<Status, RowFault> {
    match row {
        "far policy" => Ok(refused_as(TextFault::Policy(PolicyFault {
            line: u32::MAX,
            column: u32::MAX,
            kind: PolicyFaultKind::TooMany(PolicyLimit::Rules),
        }))),
        "far script" => Ok(refused_as(TextFault::Script(ScriptFault {
            line: u32::MAX,
            column: u32::MAX,
            kind: ScriptKind::BadStart(StartFault::NameTaken),
        }))),
        "far schedule" => Ok(refused_as(TextFault::Schedule(ScheduleFault {
            line: u32::MAX,
            column: 0,
            kind: ScheduleKind::NoRounds,
        }))),
        "far unfinished" => Ok(Status::Unfinished {
            target: 7,
            thread: 3,
        }),
        "far memory" => Ok(Status::Refused(Refusal::NoMemory)),
        _ => Err(RowFault::UnknownRow),
    }
}

// The status of a text that has this fault.
fn refused_as(fault: TextFault) -> Status {
    Status::Refused(Refusal::Text { which: 1, fault })
}
