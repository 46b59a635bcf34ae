// What the programs of table tests share: the lines of files of rows, what may be wrong with a row, readers of arguments, and what is
// printed of values; and the files of cases, which are whole commands with their files and their output in memory.
#![tactic(auto)]

mod calls;
mod case_texts;
mod cases;
mod escapes;
mod faults;
mod gates;
mod lines;
mod pages;
mod readers;

pub use calls::{call, put_word};
pub use case_texts::{CaseText, Due};
pub use cases::{Case, Meeting, Shown};
pub use escapes::bytes;
pub use faults::RowFault;
pub use gates::MeetingGate;
pub use lines::{is_row, told_row};
pub use pages::{Ends, Page};
pub use readers::{arguments, number, put_between, small, wide};
