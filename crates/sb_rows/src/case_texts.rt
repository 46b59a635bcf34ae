// The lines of a file of cases.

use crate::cases::{Case, Setting};
use crate::faults::RowFault;
use sb_outside::StoredFile;
use std::alloc::Global;
use std::mem;

/// What is due after a line.
#[derive(Clone, Copy)]
pub enum Due {
    /// The next line.
    Nothing,
    /// The line is a row between cases, which is printed by itself.
    Lone,
    /// The case that the line ends is run.
    Case,
}

/// A file of cases, as far as its lines were taken in.
#[derive(Drop)]
pub struct CaseText<'a> {
    // The rows of the case that is begun, that of its name first, and none between cases.
    rows: Vec<&'a str>,
    // The line of the first of them, from 1.
    first: usize,
    // The line that was taken in last, from 1.
    line: usize,
    // The files of the case before, and those of the case that is run.
    before: Vec<StoredFile>,
    after: Vec<StoredFile>,
    count: usize,
}

impl<'a> CaseText<'a> {
    /// A file of which no line was taken in.
    pub fn new(alloc: Global) -> CaseText<'a> {
        CaseText {
            rows: Vec::new(alloc),
            first: 0,
            line: 0,
            before: Vec::new(alloc),
            after: Vec::new(alloc),
            count: 0,
        }
    }

    /// The line of the fault, from 1, if the last call was refused.
    pub fn line(&self) -> usize {
        self.line
    }

    /// How many cases were run.
    pub fn count(&self) -> usize {
        self.count
    }

    /// Takes in the line of this number, and tells what is due then.
    ///
    /// # Errors
    /// The fault of the line. The next case can be taken in all the same.
    pub fn take_line(&mut self, alloc: Global, line: usize, row: &'a str) -> Result<Due, RowFault> {
        self.line = line;
        if self.rows.is_empty() {
            return self.take_between(line, row);
        }
        match first_word(row) {
            "case" => {
                // The case before has no end.
                let ended = self.end_text(alloc);
                self.begin(line, row)?;
                ended?;
                Ok(Due::Nothing)
            }
            "end" => Ok(Due::Case),
            _ => self.push(row),
        }
    }

    fn take_between(&mut self, line: usize, row: &'a str) -> Result<Due, RowFault> {
        match first_word(row) {
            "" | "#" => Ok(Due::Nothing),
            "case" => self.begin(line, row),
            "far" | "ask" => Ok(Due::Lone),
            _ => Err(RowFault::NoCase),
        }
    }

    fn begin(&mut self, line: usize, row: &'a str) -> Result<Due, RowFault> {
        self.first = line;
        self.push(row)
    }

    fn push(&mut self, row: &'a str) -> Result<Due, RowFault> {
        self.rows.push(row)?;
        Ok(Due::Nothing)
    }

    /// Ends the file.
    ///
    /// # Errors
    /// `NoEnd`, with the line of its name, if a case has no end. That case is not run.
    pub fn end_text(&mut self, alloc: Global) -> Result<(), RowFault> {
        if self.rows.is_empty() {
            return Ok(());
        }
        self.rows = Vec::new(alloc);
        self.line = self.first;
        Err(RowFault::NoEnd)
    }

    /// The rows of the case that is due, which are taken out.
    pub fn take_rows(&mut self, alloc: Global) -> Vec<&'a str> {
        mem::replace(&mut self.rows, Vec::new(alloc))
    }

    /// The case of these rows, with the bytes of the row that is tried where a row says so.
    ///
    /// # Errors
    /// The fault of the first row that is not taken in.
    pub fn case_of(
        &mut self,
        alloc: Global,
        rows: &[&str],
        tried: Option<&str>,
    ) -> Result<Case, RowFault> {
        let mut case = Case::new(alloc);
        for (at, row) in rows.iter().enumerate() {
            self.line = self.first.saturating_add(at);
            let setting = Setting {
                before: self.before.as_slice(),
                tried,
            };
            case.take_row(alloc, setting, row)?;
        }
        Ok(case)
    }

    /// Keeps the files of the case that is run, for the next case.
    pub fn keep_files(&mut self, files: Vec<StoredFile>) {
        self.after = files;
    }

    /// Ends the case that is run.
    pub fn end_case(&mut self, alloc: Global) {
        self.before = mem::replace(&mut self.after, Vec::new(alloc));
        self.count = self.count.saturating_add(1);
    }
}

fn first_word(row: &str) -> &str {
    match row.split_once(' ') {
        Some((head, _)) => head,
        None => row,
    }
}
