// Runs worked cases of the top call over files and an output in memory, and prints what came of each. The cases are in files of rows,
// which the arguments name. What is printed is compared with the file `stdout` of this crate, which holds what is right: it comes
// from the rules of the texts and from cases that were worked out, and never from a run. Cases of `run` and `make` start threads, and
// print what is the same whatever the order of their steps.
//
// A case is written in one of the files of `data`, and what it must print at the same place of `stdout`:
//
//     case NAME                    to the end of the line; `#` and blank lines occur between cases only
//     words replay policy script   the arguments of the command line; `word TEXT` is one argument, with its blanks, or empty
//     file policy                  a file, of the rows below it
//     | TEXT                       a line as it is, with a line feed
//     % TEXT                       bytes without a line feed, except the escapes `\n`, `\r`, `\t`, `\\` and `\xHH`, the byte of this number
//     * N | TEXT                   a row of one of both forms, N times
//     same policy                  the file of this name of the case before; `same written` is what that case wrote
//     fails-read N, fails-put N    this read or put fails, from 1, where the finish counts as a put; `room N`: the output takes N bytes
//     try | TEXT                   the case is run once for each such row, with its bytes where the row `$` is
//     gate N, gate N TURNS         the first call of each of the targets 0 to N - 1 is held until those of all have come, or for this many turns
//     ends M N                     only the first M and the last N of the lines that were written are printed
//     counts TEXT                  it is printed how many of the lines that were written end with TEXT
//     quiet                        only the exit code is printed
//     status                       the fault of a file that the status says is printed
//     told                         all that is written on standard error is printed, each line after an exclamation mark
//     end
//
// A row `far KIND` between cases prints the exit code of a status that no case leads to, and what is said of it. A row `ask ARGUMENTS` prints what
// the program tells of itself when it has these arguments.
//
// It prints the name of the case and, once for each row that is tried: the exit code, the count of reads and what a report
// counts; what is said on standard error, if the command is not done; what passed a gate at which calls are held; and the lines that were written, each after a bar.
#![tactic(auto)]

mod asks;
mod far;
mod runs;
mod shows;

use runs::run_case;
use sb_rows::{CaseText, Due, Page, RowFault};
use std::alloc::Global;
use std::io::Write;
use std::rt::Files;
use std::sync::Wait;
use std::thread::Threads;
use std::{env, fs, io};

fn main(rt: HostRuntime) -> io::Result<()> {
    let mut page = Page::new(rt.alloc());
    for name in env::args(&rt)?.skip(1) {
        run_file(&rt, rt.alloc(), name.as_str(), &mut page)?;
    }
    io::writer(&rt).write_all(page.as_slice())
}

// Runs the cases of a file, and puts how many there were.
fn run_file<R: Files + AllocGlobal + Threads + Wait + Sync>(
    rt: &R,
    alloc: Global,
    name: &str,
    page: &mut Page,
) -> io::Result<()> {
    let text = fs::read_to_string(rt, name)?;
    let count = run_text(rt, alloc, text.as_str(), page)?;
    Ok(page.put_line(format!(in alloc; "{name} cases {count}")?.as_str())?)
}

// Runs the cases of a text, and gives how many there were.
fn run_text<R: Threads + Wait + Sync>(
    rt: &R,
    alloc: Global,
    text: &str,
    page: &mut Page,
) -> io::Result<usize> {
    let mut cases = CaseText::new(alloc);
    for (at, line) in text.lines().enumerate() {
        let taken = take_line(rt, alloc, &mut cases, at.saturating_add(1), line, page);
        put_fault(alloc, taken, cases.line(), page)?;
    }
    let ended = cases.end_text(alloc);
    put_fault(alloc, ended, cases.line(), page)?;
    Ok(cases.count())
}

// Takes in the line of this number, and does what is due then.
fn take_line<'a, R: Threads + Wait + Sync>(
    rt: &R,
    alloc: Global,
    cases: &mut CaseText<'a>,
    number: usize,
    line: &'a str,
    page: &mut Page,
) -> Result<(), RowFault> {
    match cases.take_line(alloc, number, line)? {
        Due::Nothing => Ok(()),
        Due::Lone if line.starts_with("far") => far::put_far(alloc, line, page),
        Due::Lone => asks::put_answer(alloc, line, page),
        Due::Case => run_case(rt, alloc, cases, page),
    }
}

// Puts a fault of the text as a line of its own, so that it is seen when the page is compared.
fn put_fault(
    alloc: Global,
    taken: Result<(), RowFault>,
    line: usize,
    page: &mut Page,
) -> io::Result<()> {
    if let Err(fault) = taken {
        let text = fault.text();
        page.put_line(format!(in alloc; "FAULT line {line}: {text}")?.as_str())?;
    }
    Ok(())
}
