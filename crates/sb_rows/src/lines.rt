// The lines of a file of rows, for programs that go over them by a loop of their own.

use crate::faults::RowFault;
use std::alloc::{AllocError, Global};

/// Whether a line is a row, and not a blank line or a comment.
pub fn is_row(line: &str) -> bool {
    !line.is_empty() && !line.starts_with('#')
}

/// What is printed of a row: the row, and after it its value, or its fault.
pub fn told_row(
    alloc: Global,
    row: &str,
    value: Result<String, RowFault>,
) -> Result<String, AllocError> {
    match value {
        Ok(value) => format!(in alloc; "{row} => {value}"),
        Err(fault) => format!(in alloc; "{row} FAULT {}", fault.text()),
    }
}
