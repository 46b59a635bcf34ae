// How a command ends: its status, with the exit code and the line that tells it.
ghost use Rattle.std.specs.Prelude.{◌≡◌, Some};
ghost use Rattle.sb_message.specs.Statuses.{code_of, difference_text, file_code, refusal_text, status_of, text_of};

use crate::text_faults::TextFault;
use sb_call::{CallTag, call_word};
use sb_commands::{UsageFault, forms_text};
use sb_outside::{ReadCause, SinkFault};
use std::fmt;

/// Why a file was not read.
#[derive(Clone, Copy)]
pub enum FileRefusal {
    /// There is no such file.
    Missing,
    /// The file has more than 4,194,304 bytes, or is a transcript of more than 536,870,912.
    TooLong,
    /// It was not read, for this cause.
    ReadFault(ReadCause),
}

/// Why a command was not carried out: nothing was put. Files are numbered by their place in the command, from 1.
#[derive(Clone, Copy)]
pub enum Refusal {
    /// The arguments are no command, and this is their first fault.
    Usage(UsageFault),
    /// This file was not read.
    File { which: u8, why: FileRefusal },
    /// The text of this file has this fault, and none before it.
    Text { which: u8, fault: TextFault },
    /// The rules of a policy for this call take more states than the budget allows. The name of the policy is shown.
    TooComplex(CallTag),
    /// Out of memory.
    NoMemory,
}

/// What a command found to differ.
#[derive(Clone, Copy)]
pub enum Difference {
    /// The numbers of changed answers, and of policies that only one of two files has.
    Policies { changed: u64, single: u64 },
    /// The numbers of claims, and of those that hold.
    Claims { claims: u64, hold: u64 },
    /// The number of notes.
    Notes(u64),
    /// A run has no entry of this number, but this number of entries.
    NoEntry { entry: u64, entries: u64 },
}

/// The status of a command after its text was put.
#[derive(Clone, Copy)]
pub enum EndStatus {
    /// All is as it should be.
    Done,
    /// Something differs.
    Differs(Difference),
    /// The run left a thread unfinished: the first such one is this thread of this target, both numbered from 0.
    Unfinished { target: u32, thread: u32 },
}

/// How a command ended.
#[derive(Clone, Copy)]
pub enum Status {
    /// All was put, and all is as it should be.
    Done,
    /// All was put, and something differs.
    Differs(Difference),
    /// The run left a thread unfinished: the first such one is this thread of this target, both numbered from 0.
    Unfinished { target: u32, thread: u32 },
    /// Something was not written, for this reason.
    WriteFault(SinkFault),
    /// The command was not carried out.
    Refused(Refusal),
}

impl From<EndStatus> for Status {
    ghost use Rattle.std.specs.Prelude.{◌≡◌};
    ghost use Rattle.sb_message.specs.Statuses.{status_of};

    ghost from_gives = { λ end status. status ≡ status_of end };

    fn from(end: EndStatus) -> Status {
        match end {
            EndStatus::Done => Status::Done,
            EndStatus::Differs(difference) => Status::Differs(difference),
            EndStatus::Unfinished { target, thread } => Status::Unfinished { target, thread },
        }
    }
}

impl Status {
    /// The exit code of the program.
    pub fn exit_code(self) -> u8
        ensures { result ≡ code_of self }
    {
        match self {
            Status::Done => 0,
            Status::WriteFault(_) => 9,
            Status::Unfinished { .. } => 10,
            Status::Differs(_) => 15,
            Status::Refused(refusal) => refusal.exit_code(),
        }
    }
}

impl Refusal {
    // The exit code of the program.
    fn exit_code(self) -> u8
        ensures { result ≡ code_of (Status.Refused self) }
    {
        match self {
            Refusal::Usage(_) => 2,
            Refusal::Text { fault, .. } => fault.exit_code(),
            Refusal::File { why, .. } => why.exit_code(),
            Refusal::NoMemory => 11,
            Refusal::TooComplex(_) => 17,
        }
    }
}

impl FileRefusal {
    // The exit code of the program.
    fn exit_code(self) -> u8
        ensures { result ≡ file_code self }
    {
        match self {
            FileRefusal::Missing => 6,
            FileRefusal::TooLong => 7,
            FileRefusal::ReadFault(_) => 8,
        }
    }
}

impl fmt::Display for Difference {
    ghost output = { λ d. Some (difference_text d) };

    fn fmt<W: fmt::Write>(&self, f: &mut fmt::Formatter<W>) -> fmt::Result {
        match *self {
            Difference::Policies { changed, single } => {
                write!(f, "changed {changed}, only in one file {single}")
            }
            Difference::Claims { claims, hold } => write!(f, "claims {claims}, hold {hold}"),
            Difference::Notes(notes) => write!(f, "notes {notes}"),
            Difference::NoEntry { entry, entries } => { write!(f, "no entry {entry} of {entries}") }
        }
    }
}

impl fmt::Display for Refusal {
    ghost output = { λ r. Some (refusal_text r) };

    fn fmt<W: fmt::Write>(&self, f: &mut fmt::Formatter<W>) -> fmt::Result {
        match *self {
            Refusal::Usage(_) => {
                let forms = forms_text();
                write!(f, "usage: {forms}")
            }
            Refusal::Text { which: _, fault } => write!(f, "{fault}"),
            Refusal::File { which, why } => match why {
                FileRefusal::Missing => write!(f, "missing file {which}"),
                FileRefusal::TooLong => write!(f, "file {which} too long"),
                FileRefusal::ReadFault(_) => write!(f, "read fault in file {which}"),
            },
            Refusal::TooComplex(tag) => {
                let call = call_word(tag);
                write!(f, "too complex: {call}")
            }
            Refusal::NoMemory => f.write_str("no memory"),
        }
    }
}

impl fmt::Display for Status {
    ghost output = { λ s. Some (text_of s) };

    fn fmt<W: fmt::Write>(&self, f: &mut fmt::Formatter<W>) -> fmt::Result {
        match *self {
            Status::Done => f.write_str("done"),
            Status::Differs(difference) => write!(f, "differs: {difference}"),
            Status::Unfinished { target, thread } => {
                write!(f, "unfinished: target {target} thread {thread}")
            }
            Status::WriteFault(_) => f.write_str("write fault"),
            Status::Refused(refusal) => write!(f, "{refusal}"),
        }
    }
}
