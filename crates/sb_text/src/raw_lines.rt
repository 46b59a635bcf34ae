// The lines of bytes as they are between LFs, one after another.
ghost use Rattle.std.specs.Prelude.{◌≡◌, ◌∷◌, ◌<◌, ◌^◌, [], length, MatchOption};
ghost use Rattle.sb_text.specs.Lines.{NumberedRawLine, numbered_raw_lines};

use crate::lines::cut_bytes;
use std::marker::Model;

/// A line as it is between LFs.
#[derive(Clone, Copy)]
pub struct RawLine<'a> {
    /// The number of the line, from 1.
    pub number: u32,
    /// The bytes of the line without its LF.
    pub bytes: &'a [u8],
    /// Whether an LF follows them. It does except for bytes that follow the last LF.
    pub is_ended: bool,
}

/// What is left of bytes: their lines as they are between LFs.
#[derive(Drop)]
pub struct RawLines<'a> {
    rest: &'a [u8],
    passed: u32,
}

impl<'a> Model for RawLines<'a> {
    ghost use Rattle.std.specs.Prelude.{List, ◌+◌, ◌<◌, ◌^◌, length};
    ghost use Rattle.sb_text.specs.Lines.{NumberedRawLine, raw_lines_from};

    ghost Value = { List NumberedRawLine };

    ghost view = { λ l. raw_lines_from (l.passed + 1) l.rest.now };

    ghost invariant = { λ l. l.passed + length l.rest.now < 2 ^ 32 };
}

impl<'a> RawLines<'a> {
    /// The lines of fewer than 2^32 bytes.
    pub fn new(bytes: &'a [u8]) -> RawLines<'a>
        requires { length bytes.now < 2 ^ 32 }
        ensures { result ≡ numbered_raw_lines bytes.now }
    {
        RawLines {
            rest: bytes,
            passed: 0,
        }
    }

    /// The next line.
    pub fn next_line(&mut self) -> Option<RawLine<'a>>
        ensures { MatchOption result ((self.old ≡ []) × (self.new ≡ []))
            (λ line. self.old ≡ record { number = line.number; bytes = line.bytes.now; is_ended = line.is_ended } ∷ self.new) }
    {
        let rest = self.rest;
        let (bytes, later) = cut_bytes(rest)?;
        self.rest = later;
        self.passed += 1;
        Some(RawLine {
            number: self.passed,
            bytes,
            is_ended: bytes.len() < rest.len(),
        })
    }
}
