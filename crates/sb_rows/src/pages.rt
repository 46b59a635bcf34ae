// What is printed, gathered in memory and written at once.

use std::alloc::{AllocError, Global};

/// Which lines of a text are printed: this many from its beginning and from its end.
#[derive(Clone, Copy)]
pub struct Ends {
    pub first: u64,
    pub last: u64,
}

impl Ends {
    /// All lines.
    pub const ALL: Ends = Ends {
        first: u64::MAX,
        last: 0,
    };
}

/// Lines of bytes.
#[derive(Drop)]
pub struct Page {
    bytes: Vec<u8>,
}

impl Page {
    /// An empty page.
    pub fn new(alloc: Global) -> Page {
        Page {
            bytes: Vec::new(alloc),
        }
    }

    /// All that was put.
    pub fn as_slice(&self) -> &[u8] {
        &self.bytes
    }

    /// Puts a line.
    pub fn put_line(&mut self, line: &str) -> Result<(), AllocError> {
        self.bytes.extend_from_slice(line.as_bytes())?;
        self.bytes.extend_from_slice(b"\n")
    }

    /// Puts how many lines of a text end with this.
    pub fn put_count(&mut self, alloc: Global, text: &[u8], end: &str) -> Result<(), AllocError> {
        let count = ending_lines(text, end.as_bytes());
        self.put_line(format!(in alloc; "{count} lines end with {end}")?.as_str())
    }

    /// Puts the lines of a text, each after a bar. Lines that are left out are replaced by a line that tells how many they
    /// are. A last line without a line feed is followed by a line that says so.
    pub fn put_quoted(&mut self, alloc: Global, text: &[u8], ends: Ends) -> Result<(), AllocError> {
        let left_out = line_count(text)
            .saturating_sub(ends.first)
            .saturating_sub(ends.last);
        let mut number = 0_u64;
        let mut last = b'\n';
        for byte in text {
            if last == b'\n' {
                number = number.saturating_add(1);
                self.begin_line(alloc, number, ends.first, left_out)?;
            }
            if is_shown(number, ends.first, left_out) {
                self.bytes.push(*byte)?;
            }
            last = *byte;
        }
        match last {
            b'\n' => Ok(()),
            _ => self.bytes.extend_from_slice(b"\nno line feed\n"),
        }
    }

    // Begins the line of this number, from 1: with a bar, or, if it is the first that is left out, with how many are.
    fn begin_line(
        &mut self,
        alloc: Global,
        number: u64,
        first: u64,
        left_out: u64,
    ) -> Result<(), AllocError> {
        if is_shown(number, first, left_out) {
            return self.bytes.extend_from_slice(b"| ");
        }
        if number == first.saturating_add(1) {
            return self.put_line(format!(in alloc; "{left_out} lines")?.as_str());
        }
        Ok(())
    }
}

// Whether the line of this number is printed if all are but this many after the first ones.
fn is_shown(number: u64, first: u64, left_out: u64) -> bool {
    number <= first || number > first.saturating_add(left_out)
}

// How many lines of a text end with these bytes.
fn ending_lines(text: &[u8], end: &[u8]) -> u64 {
    let mut count = 0_u64;
    for line in text.split(|byte| *byte == b'\n') {
        if line.ends_with(end) {
            count = count.saturating_add(1);
        }
    }
    count
}

// How many lines a text has: one begins at its first byte, and one at each byte after a line feed.
fn line_count(text: &[u8]) -> u64 {
    let mut count = 0_u64;
    let mut last = b'\n';
    for byte in text {
        if last == b'\n' {
            count = count.saturating_add(1);
        }
        last = *byte;
    }
    count
}
