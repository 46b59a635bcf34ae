// Prints table tests of the libraries that the program does not use: that for hosts, and covers of calls. A row is a function with its arguments, which bars divide, and what it gives is printed after
// it. The rows are in files, which the arguments name; what is printed is compared with the file `stdout` of this crate, which holds the same
// rows with the values that are right. If memory runs out the program ends with an error.
#![tactic(auto)]

mod calls;
mod channels;
mod compares;
mod covers;
mod decisions;
mod literals;
mod policies;
mod rows;

use sb_rows::{RowFault, is_row, told_row};
use std::alloc::{AllocError, Global};
use std::rt::Files;
use std::{env, fs, io};

fn main(rt: HostRuntime) -> io::Result<()> {
    for name in env::args(&rt)?.skip(1) {
        let text = fs::read_to_string(&rt, name)?;
        print_rows(&rt, text.as_str())?;
    }
    Ok(())
}

fn print_rows<R: Files + Print + AllocGlobal>(rt: &R, text: &str) -> io::Result<()> {
    for line in text.lines() {
        rt.println(told_line(rt.alloc(), line)?)?;
    }
    Ok(())
}

// What is printed of a line: a blank line or a comment as it is, and a row with its value.
fn told_line(alloc: Global, line: &str) -> Result<String, AllocError> {
    if !is_row(line) {
        return String::from_str(alloc, line);
    }
    match rows::value_of(alloc, line) {
        Err(RowFault::NoMemory) => Err(AllocError),
        value => told_row(alloc, line, value),
    }
}
