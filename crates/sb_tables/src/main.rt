// Prints table tests of functions: of files and outputs of the system, of an index, of rules, codes and scripts, of explained decisions, of the nodes of an arena, of
// single lines of a transcript, of messages, of the pool of works, and of the memory that the threads of a run share. It also does works
// that no command does alone, in a given number of rounds, so that bench/run can take the time. A row is a function with its arguments,
// which bars divide, and what it gives is printed after it. Some rows start threads; what they give is the same in whatever order the
// threads make their steps. The rows are in files, which the arguments name; what is printed is compared with the file `stdout` of this
// crate, which holds the same rows with the values that are right. If memory runs out the program ends with an error.
#![tactic(auto)]

mod answering;
mod arenas;
mod bytes;
mod closings;
mod codes;
mod copies;
mod crews;
mod crowding;
mod disks;
mod explained;
mod host;
mod indexes;
mod inputs;
mod judging;
mod lines;
mod messages;
mod openings;
mod players;
mod plays;
mod policies;
mod pools;
mod rows;
mod scripts;
mod shows;
mod stops;
mod works;
mod writing;

use sb_rows::{RowFault, is_row, told_row};
use std::alloc::{AllocError, Global};
use std::rt::Files;
use std::sync::Wait;
use std::thread::Threads;
use std::{env, fs, io};

fn main(rt: HostRuntime) -> io::Result<()> {
    for name in env::args(&rt)?.skip(1) {
        let text = fs::read_to_string(&rt, name)?;
        print_rows(&rt, text.as_str())?;
    }
    Ok(())
}

fn print_rows<R: Files + Print + AllocGlobal + Threads + Wait + Sync>(
    rt: &R,
    text: &str,
) -> io::Result<()> {
    for line in text.lines() {
        rt.println(told_line(rt, rt.alloc(), line)?)?;
    }
    Ok(())
}

// What is printed of a line: a blank line or a comment as it is, and a row with its value.
fn told_line<R: Files + AllocGlobal + Threads + Wait + Sync>(
    rt: &R,
    alloc: Global,
    line: &str,
) -> Result<String, AllocError> {
    if !is_row(line) {
        return String::from_str(alloc, line);
    }
    match rows::value_of(rt, alloc, line) {
        Err(RowFault::NoMemory) => Err(AllocError),
        value => told_row(alloc, line, value),
    }
}
