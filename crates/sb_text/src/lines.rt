// The lines of a text, and those that are neither blank nor comments, one after another.
ghost use Rattle.std.specs.Prelude.{◌≡◌, drop, true, ◌∷◌, ◌==◌, ◌<◌, ◌≤◌, ◌+◌, ◌-◌, ◌^◌, [], length, take, slice_index, slice_range, ℕ, nat_lt, None, Some, IfSome, MatchOption};
ghost use Rattle.sb_text.specs.Lines.{is_blank, is_skipped, line_numbered, raw_lines, raw_lines_from, without_cr, NumberedLine, lines_of, lines_from};
ghost use Rattle.std.specs.List.{position_or_len};
ghost use Rattle.sb_text.specs.Tokens.{tokens_of};

use crate::tokens::Tokens;
use memchr::memchr;
use std::marker::Model;
use std::ops::Range;

/// Whether a byte is a space or a tab.
pub(crate) fn is_blank(byte: u8) -> bool
    ensures { result ≡ is_blank byte }
{
    byte == b' ' || byte == b'\t'
}

/// Whether a line is blank or a comment: it holds blanks alone, or its first other byte is `#`.
pub(crate) fn is_skipped(line: &[u8]) -> bool
    ensures { result ≡ is_skipped line.now }
{
    for byte in line {
        if !is_blank(*byte) {
            return *byte == b'#';
        }
    }
    true
}

// How many bytes precede the first LF, all if there is none.
fn line_len(bytes: &[u8]) -> usize
    ensures value { result ≡ position_or_len (λ b. b == 10) bytes.now }
    ensures within { result ≤ length bytes.now }
{
    memchr(b'\n', bytes).unwrap_or(bytes.len())
}

// How many bytes of a line precede the one CR at its end, all if there is none.
fn text_len(line: &[u8]) -> usize
    ensures value { take result line.now ≡ without_cr line.now }
    ensures within { result ≤ length line.now }
{
    match line {
        [.., b'\r'] => line.len() - 1,
        _ => line.len(),
    }
}

/// What follows an ASCII character of a text.
pub(crate) fn after_ascii(text: &str, at: usize) -> &str
    requires within { at < length text.now }
    requires ascii { slice_index text.now at < 128 }
    ensures { result.now ≡ drop (at + 1) text.now }
{
    &text[at + 1..]
}

// What follows the LF at a place of a text, nothing if the text ends there.
fn after_lf(text: &str, end: usize) -> &str
    requires { end < length text.now → slice_index text.now end ≡ 10 }
    ensures { result.now ≡ drop (end + 1) text.now }
{
    if end < text.len() {
        after_ascii(text, end)
    } else {
        ""
    }
}

// The same of bytes.
fn after(bytes: &[u8], end: usize) -> &[u8]
    ensures { result.now ≡ drop (end + 1) bytes.now }
{
    if end < bytes.len() {
        &bytes[end + 1..]
    } else {
        &[]
    }
}

// The first line of a text, without its LF, and what follows it.
#[tactic(auto, using(crate::proofs::LineLemmas::lines_at_first, crate::proofs::LineLemmas::lf_at_first))]
fn cut_text(text: &str) -> Option<(&str, &str)>
    ensures line { MatchOption result (text.now ≡ []) (λ cut. raw_lines text.now ≡ cut.0.now ∷ raw_lines cut.1.now) }
    ensures within { IfSome result (λ cut. length cut.0.now ≤ length text.now) }
    ensures shorter { IfSome result (λ cut. length cut.1.now < length text.now) }
{
    if text.is_empty() {
        return None;
    }
    let end = line_len(text.as_bytes());
    Some((&text[..end], after_lf(text, end)))
}

/// The first line of bytes, without its LF, and what follows it.
#[tactic(auto, using(crate::proofs::LineLemmas::lines_at_first, crate::proofs::LineLemmas::raw_lines_at_first))]
pub(crate) fn cut_bytes(bytes: &[u8]) -> Option<(&[u8], &[u8])>
    ensures line { MatchOption result (bytes.now ≡ []) (λ cut. raw_lines bytes.now ≡ cut.0.now ∷ raw_lines cut.1.now) }
    ensures raw { IfSome result (λ cut. (n : ℕ) → raw_lines_from n bytes.now
        ≡ record { number = n; bytes = cut.0.now; is_ended = nat_lt (length cut.0.now) (length bytes.now) } ∷ raw_lines_from (n + 1) cut.1.now) }
    ensures parts { IfSome result (λ cut. (cut.0.now ≡ take (length cut.0.now) bytes.now) × (cut.1.now ≡ drop (length cut.0.now + 1) bytes.now)) }
    ensures within { IfSome result (λ cut. length cut.0.now ≤ length bytes.now) }
    ensures shorter { IfSome result (λ cut. length cut.1.now < length bytes.now) }
{
    if bytes.is_empty() {
        return None;
    }
    let end = line_len(bytes);
    Some((&bytes[..end], after(bytes, end)))
}

// A line of a text without one CR at its end.
fn text_without_cr(line: &str) -> &str
    ensures value { result.now ≡ without_cr line.now }
    ensures within { length result.now ≤ length line.now }
{
    &line[..text_len(line.as_bytes())]
}

/// A line of bytes without one CR at its end.
pub(crate) fn bytes_without_cr(line: &[u8]) -> &[u8]
    ensures value { result.now ≡ without_cr line.now }
    ensures within { length result.now ≤ length line.now }
{
    &line[..text_len(line)]
}

/// The number of lines of fewer than 2^32 bytes: the number of LF, and one more if bytes follow the last LF.
pub fn line_count(bytes: &[u8]) -> u32
    requires { length bytes.now < 2 ^ 32 }
    ensures { result ≡ length (raw_lines bytes.now) }
{
    let mut rest = bytes;
    let mut count = 0;
    while let Some((_, later)) = cut_bytes(rest) {
        rest = later;
        count += 1;
    }
    count
}

/// Where the line of this number, from 1 among all lines, is in a text, without its LF and without one CR at its end; None if there is no such line.
#[tactic(auto, using(crate::proofs::LineLemmas::rest_kept, crate::proofs::LineLemmas::line_in_text))]
pub(crate) fn line_place(number: u32, text: &[u8]) -> Option<Range<usize>>
    ensures line { MatchOption result (line_numbered number text.now ≡ None) (λ place. line_numbered number text.now ≡ Some (slice_range text.now place.start place.end)) }
    ensures within { IfSome result (λ place. (place.start ≤ place.end) × (place.end ≤ length text.now)) }
{
    let mut rest = text;
    let mut before = number.saturating_sub(1);
    while let Some((line, later)) = cut_bytes(rest) {
        if before == 0 {
            let start = text.len() - rest.len();
            return Some(start..start + text_len(line));
        }
        rest = later;
        before -= 1;
    }
    None
}

/// The line of this number, from 1 among all lines, without its LF and without one CR at its end; None if there is no such line.
pub fn line_numbered(number: u32, text: &[u8]) -> Option<&[u8]>
    ensures line { MatchOption result (line_numbered number text.now ≡ None) (λ line. line_numbered number text.now ≡ Some line.now) }
    ensures within { IfSome result (λ line. length line.now ≤ length text.now) }
{
    let place = line_place(number, text)?;
    Some(&text[place])
}

/// A line that is neither blank nor a comment.
#[derive(Clone, Copy)]
pub struct Line<'a> {
    /// The number of the line in its text, from 1.
    pub number: u32,
    /// The line without its LF and without one CR at its end.
    pub text: &'a str,
}

impl<'a> Line<'a> {
    /// The tokens of the line.
    pub fn tokens(&self) -> Tokens<'a>
        ensures { result ≡ tokens_of self.now.text.now }
    {
        Tokens::new(self.text)
    }
}

/// What is left of a text: the lines that are neither blank nor comments, with their numbers.
#[derive(Drop)]
pub struct Lines<'a> {
    rest: &'a str,
    passed: u32,
}

impl<'a> Model for Lines<'a> {
    ghost use Rattle.std.specs.Prelude.{List, ◌+◌, ◌<◌, ◌^◌, length};
    ghost use Rattle.sb_text.specs.Lines.{NumberedLine, lines_from, raw_lines};

    ghost Value = { List NumberedLine };

    ghost view = { λ l. lines_from (l.passed + 1) (raw_lines l.rest.now) };

    ghost invariant = { λ l. l.passed + length l.rest.now + 1 < 2 ^ 32 };
}

impl<'a> Lines<'a> {
    /// The lines of a text of fewer than 2^32 - 1 bytes.
    pub fn new(text: &'a str) -> Lines<'a>
        requires { length text.now + 1 < 2 ^ 32 }
        ensures { result ≡ lines_of text.now }
    {
        Lines {
            rest: text,
            passed: 0,
        }
    }

    /// The next line that is neither blank nor a comment.
    pub fn next_line(&mut self) -> Option<Line<'a>>
        ensures line { MatchOption result ((self.old ≡ []) × (self.new ≡ []))
            (λ line. self.old ≡ record { number = line.number; text = line.text.now } ∷ self.new) }
        ensures short { IfSome result (λ line. length line.text.now + 1 < 2 ^ 32) }
    {
        while let Some((line, later)) = cut_text(self.rest) {
            self.rest = later;
            self.passed += 1;
            let text = text_without_cr(line);
            if !is_skipped(text.as_bytes()) {
                return Some(Line {
                    number: self.passed,
                    text,
                });
            }
        }
        None
    }
}
