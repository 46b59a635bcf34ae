// The lines of bytes that are neither blank nor comments, one after another.
ghost use Rattle.std.specs.Prelude.{◌≡◌, ◌∷◌, ◌+◌, ◌<◌, ◌^◌, [], length, IfSome, MatchOption};
ghost use Rattle.sb_text.specs.Lines.{NumberedLine, lines_of};
ghost use Rattle.sb_text.specs.Tokens.{words_of};

use crate::lines::{bytes_without_cr, cut_bytes, is_skipped};
use crate::words::Words;
use std::marker::Model;

/// A line of bytes that is neither blank nor a comment.
#[derive(Clone, Copy)]
pub struct ByteLine<'a> {
    /// The number of the line among all lines, from 1.
    pub number: u32,
    /// The line without its LF and without one CR at its end.
    pub text: &'a [u8],
}

impl<'a> ByteLine<'a> {
    /// The words of the line.
    pub fn words(&self) -> Words<'a>
        ensures { result ≡ words_of self.now.text.now }
    {
        Words::new(self.text)
    }
}

/// What is left of bytes: the lines that are neither blank nor comments, with their numbers.
#[derive(Drop)]
pub struct ByteLines<'a> {
    rest: &'a [u8],
    passed: u32,
}

impl<'a> Model for ByteLines<'a> {
    ghost use Rattle.std.specs.Prelude.{List, ◌+◌, ◌<◌, ◌^◌, length};
    ghost use Rattle.sb_text.specs.Lines.{NumberedLine, lines_from, raw_lines};

    ghost Value = { List NumberedLine };

    ghost view = { λ l. lines_from (l.passed + 1) (raw_lines l.rest.now) };

    ghost invariant = { λ l. l.passed + length l.rest.now + 1 < 2 ^ 32 };
}

impl<'a> ByteLines<'a> {
    /// The lines of fewer than 2^32 - 1 bytes.
    pub fn new(bytes: &'a [u8]) -> ByteLines<'a>
        requires { length bytes.now + 1 < 2 ^ 32 }
        ensures { result ≡ lines_of bytes.now }
    {
        ByteLines {
            rest: bytes,
            passed: 0,
        }
    }

    /// The next line that is neither blank nor a comment.
    pub fn next_line(&mut self) -> Option<ByteLine<'a>>
        ensures line { MatchOption result ((self.old ≡ []) × (self.new ≡ []))
            (λ line. self.old ≡ record { number = line.number; text = line.text.now } ∷ self.new) }
        ensures short { IfSome result (λ line. length line.text.now + 1 < 2 ^ 32) }
    {
        while let Some((line, later)) = cut_bytes(self.rest) {
            self.rest = later;
            self.passed += 1;
            let text = bytes_without_cr(line);
            if !is_skipped(text) {
                return Some(ByteLine {
                    number: self.passed,
                    text,
                });
            }
        }
        None
    }
}
