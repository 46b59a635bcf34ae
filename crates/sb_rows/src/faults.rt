// What is wrong with a row.

use sb_base::NoMemory;
use std::alloc::{AllocError, AllocFailed};

/// What is wrong with a row.
#[derive(Clone, Copy)]
pub enum RowFault {
    /// No function has this name and this number of arguments.
    Unknown,
    /// A number is neither decimal nor hexadecimal after `0x`, or too large.
    BadNumber,
    /// Braces hold no unit.
    BadUnit,
    /// A backslash is not the beginning of an escape.
    BadEscape,
    /// Bytes are not UTF-8 where a text is due.
    BadText,
    /// Words of an argument are not those of any value.
    BadWords,
    /// There are more items than the value can hold.
    TooMany,
    /// The function may not be called with these arguments.
    NotInRange,
    /// A text is not read as a policy.
    BadPolicy,
    /// A row of a case has no such first word.
    UnknownRow,
    /// A row is outside of a case.
    NoCase,
    /// A case has no end.
    NoEnd,
    /// A row of a file comes before any file.
    NoFile,
    /// The case before has no file of this name.
    NoSuchFile,
    /// No row is tried in the case.
    NoTry,
    /// Out of memory.
    NoMemory,
}

impl RowFault {
    /// What is printed after the row.
    pub fn text(self) -> &'static str {
        match self {
            RowFault::Unknown => "no function of this name takes that many arguments",
            RowFault::BadNumber => "bad number",
            RowFault::BadUnit => "bad unit",
            RowFault::BadEscape => "bad escape",
            RowFault::BadText => "not UTF-8",
            RowFault::BadWords => "bad words",
            RowFault::TooMany => "too many words",
            RowFault::NotInRange => "not in range",
            RowFault::BadPolicy => "not the text of such a policy",
            RowFault::UnknownRow => "unknown row",
            RowFault::NoCase => "a row outside of a case",
            RowFault::NoEnd => "the case has no end",
            RowFault::NoFile => "no file is begun",
            RowFault::NoSuchFile => "the case before has no such file",
            RowFault::NoTry => "nothing is tried",
            RowFault::NoMemory => "out of memory",
        }
    }
}

impl From<AllocError> for RowFault {
    fn from(_error: AllocError) -> RowFault {
        RowFault::NoMemory
    }
}

impl<T: Drop> From<AllocFailed<T>> for RowFault {
    fn from(_error: AllocFailed<T>) -> RowFault {
        RowFault::NoMemory
    }
}

impl From<NoMemory> for RowFault {
    fn from(_error: NoMemory) -> RowFault {
        RowFault::NoMemory
    }
}
