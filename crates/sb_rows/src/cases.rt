// A case: the arguments of a command line, files and an output in memory, and what goes wrong there.

use crate::escapes::bytes;
use crate::faults::RowFault;
use crate::pages::{Ends, Page};
use crate::readers::number;
use sb_outside::{Bytes, FileList, MemFiles, MemSink, Numbers, StoredFile, Text};
use std::alloc::Global;
use std::mem;

// The output takes this many bytes if no row says otherwise.
const ROOM: u64 = 2_000_000;

// A gate holds a call for this many turns at most if no row says otherwise.
const TURNS: u64 = 10_000_000;

/// What the rows of a case refer to.
#[derive(Clone, Copy)]
pub struct Setting<'a> {
    /// The files of the case before.
    pub before: &'a [StoredFile],
    /// The row that is tried.
    pub tried: Option<&'a str>,
}

/// What is printed of how a case ended, besides its exit code.
#[derive(Clone, Copy)]
pub struct Shown {
    /// Whether nothing else is.
    pub quiet: bool,
    /// Whether the status is, with all that it says.
    pub status: bool,
    /// Whether all that is written on standard error is.
    pub told: bool,
    /// Which of the lines that were written are.
    pub ends: Ends,
}

/// The gate of a case.
#[derive(Clone, Copy)]
pub struct Meeting {
    /// How many targets meet there, and 0 if there is no gate.
    pub targets: u64,
    /// For how many turns at most a call is held.
    pub turns: u64,
}

// A file, as far as its rows were taken in.
struct Draft {
    name: String,
    bytes: Vec<u8>,
}

impl Drop for Draft {
    fn drop(self) {
        let Draft { name: _, bytes: _ } = self;
    }
}

impl Draft {
    fn into_file(self) -> StoredFile {
        let Draft { name, bytes } = self;
        StoredFile {
            name: Text::new(name),
            content: Bytes::new(bytes),
        }
    }
}

/// A case, as far as its rows were taken in.
pub struct Case {
    words: Vec<String>,
    files: Vec<Draft>,
    reads: Vec<u64>,
    puts: Vec<u64>,
    room: u64,
    meeting: Meeting,
    shown: Shown,
    counted: Vec<String>,
}

impl Drop for Case {
    fn drop(self) {
        let Case {
            words: _,
            files: _,
            reads: _,
            puts: _,
            room: _,
            meeting: _,
            shown: _,
            counted: _,
        } = self;
    }
}

impl Case {
    /// A case with nothing in it yet.
    pub fn new(alloc: Global) -> Case {
        Case {
            words: Vec::new(alloc),
            files: Vec::new(alloc),
            reads: Vec::new(alloc),
            puts: Vec::new(alloc),
            room: ROOM,
            meeting: Meeting {
                targets: 0,
                turns: TURNS,
            },
            shown: Shown {
                quiet: false,
                status: false,
                told: false,
                ends: Ends::ALL,
            },
            counted: Vec::new(alloc),
        }
    }

    /// The arguments of the command line.
    pub fn words(&self) -> &[String] {
        &self.words
    }

    /// The gate.
    pub fn meeting(&self) -> Meeting {
        self.meeting
    }

    /// What is printed of how the case ended.
    pub fn shown(&self) -> Shown {
        self.shown
    }

    /// Takes in a row.
    pub fn take_row(&mut self, alloc: Global, setting: Setting, row: &str) -> Result<(), RowFault> {
        let (head, rest) = row.split_once(' ').unwrap_or((row, ""));
        match head {
            "case" | "try" => Ok(()),
            "words" => self.take_words(alloc, rest),
            "word" => self.take_word(alloc, rest),
            "file" => self.take_file(alloc, rest, Vec::new(alloc)),
            "same" => self.take_same(alloc, setting.before, rest),
            "|" | "%" => self.take_bytes(1, row),
            "*" => self.take_repeated(rest),
            "$" => self.take_tried(setting.tried),
            "counts" => self.take_count(alloc, rest),
            _ => self.take_setting(head, rest),
        }
    }

    // Takes in a row on what goes wrong outside, on the gate, or on what is printed.
    fn take_setting(&mut self, head: &str, rest: &str) -> Result<(), RowFault> {
        match head {
            "fails-read" => self.reads.push(number(rest)?)?,
            "fails-put" => self.puts.push(number(rest)?)?,
            "room" => self.room = number(rest)?,
            "gate" => self.meeting = meeting_of(rest)?,
            "ends" => self.shown.ends = ends_of(rest)?,
            "quiet" => self.shown.quiet = true,
            "status" => self.shown.status = true,
            "told" => self.shown.told = true,
            _ => return Err(RowFault::UnknownRow),
        }
        Ok(())
    }

    fn take_words(&mut self, alloc: Global, rest: &str) -> Result<(), RowFault> {
        for word in rest.split(' ') {
            self.take_word(alloc, word)?;
        }
        Ok(())
    }

    fn take_word(&mut self, alloc: Global, word: &str) -> Result<(), RowFault> {
        self.words.push(String::from_str(alloc, word)?)?;
        Ok(())
    }

    fn take_count(&mut self, alloc: Global, end: &str) -> Result<(), RowFault> {
        self.counted.push(String::from_str(alloc, end)?)?;
        Ok(())
    }

    // Begins a file with these bytes.
    fn take_file(&mut self, alloc: Global, name: &str, bytes: Vec<u8>) -> Result<(), RowFault> {
        let name = String::from_str(alloc, name)?;
        self.files.push(Draft { name, bytes })?;
        Ok(())
    }

    // Takes over a file of the case before.
    fn take_same(
        &mut self,
        alloc: Global,
        before: &[StoredFile],
        name: &str,
    ) -> Result<(), RowFault> {
        for file in before {
            if file.name.as_str() == name {
                let bytes = Vec::from_slice(alloc, file.content.as_slice())?;
                return self.take_file(alloc, name, bytes);
            }
        }
        Err(RowFault::NoSuchFile)
    }

    fn take_repeated(&mut self, rest: &str) -> Result<(), RowFault> {
        match rest.split_once(' ') {
            Some((times, repeated)) => self.take_bytes(number(times)?, repeated),
            None => Err(RowFault::UnknownRow),
        }
    }

    fn take_tried(&mut self, tried: Option<&str>) -> Result<(), RowFault> {
        match tried {
            Some(row) => self.take_bytes(1, row),
            None => Err(RowFault::NoTry),
        }
    }

    // Appends the bytes of a row this many times to the last file.
    fn take_bytes(&mut self, times: u64, row: &str) -> Result<(), RowFault> {
        let Some(file) = self.files.last_mut() else {
            return Err(RowFault::NoFile);
        };
        for _ in 0..times {
            put_row(row, &mut file.bytes)?;
        }
        Ok(())
    }

    /// The files of the case, which are taken out of it.
    pub fn take_files(&mut self, alloc: Global) -> Result<MemFiles, RowFault> {
        let mut files = FileList::empty(alloc);
        for draft in mem::replace(&mut self.files, Vec::new(alloc)) {
            files.push(draft.into_file())?;
        }
        Ok(MemFiles {
            files,
            fails: Numbers::new(mem::replace(&mut self.reads, Vec::new(alloc))),
            calls: 0,
            faults: 0,
        })
    }

    /// An empty output, whose puts fail where the rows say so.
    pub fn sink(&mut self, alloc: Global) -> Result<MemSink, RowFault> {
        let puts = mem::replace(&mut self.puts, Vec::new(alloc));
        Ok(MemSink::with_room(alloc, self.room, puts)?)
    }

    /// Puts what was written, as far as the rows say so.
    pub fn put_written(
        &self,
        alloc: Global,
        written: &[u8],
        page: &mut Page,
    ) -> Result<(), RowFault> {
        for end in &self.counted {
            page.put_count(alloc, written, end.as_str())?;
        }
        if self.shown.quiet {
            return Ok(());
        }
        Ok(page.put_quoted(alloc, written, self.shown.ends)?)
    }
}

// The gate of a row `gate N` or `gate N TURNS`.
fn meeting_of(rest: &str) -> Result<Meeting, RowFault> {
    let (targets, turns) = match rest.split_once(' ') {
        Some((targets, turns)) => (targets, number(turns)?),
        None => (rest, TURNS),
    };
    Ok(Meeting {
        targets: number(targets)?,
        turns,
    })
}

// The counts of lines of a row `ends M N`.
fn ends_of(rest: &str) -> Result<Ends, RowFault> {
    let (first, last) = rest.split_once(' ').unwrap_or((rest, ""));
    Ok(Ends {
        first: number(first)?,
        last: number(last)?,
    })
}

// Appends the bytes of a row: of `| TEXT` the text and a line feed, of `% TEXT` those that the text denotes.
fn put_row(row: &str, out: &mut Vec<u8>) -> Result<(), RowFault> {
    let (head, line) = row.split_once(' ').unwrap_or((row, ""));
    match head {
        "|" => {
            out.extend_from_slice(line.as_bytes())?;
            Ok(out.extend_from_slice(b"\n")?)
        }
        "%" => {
            let denoted = bytes(*out.allocator(), line)?;
            Ok(out.extend_from_slice(&denoted)?)
        }
        _ => Err(RowFault::UnknownRow),
    }
}
