// The words of a line of bytes, cut at blanks alone, and the first line of a text of such lines.
ghost use Rattle.std.specs.Prelude.{◌≡◌, ℕ, ◌<◌, ◌≤◌, length, slice_index, MatchOption, false};
ghost use Rattle.std.specs.List.{position_or_len};
ghost use Rattle.sb_text.specs.Lines.{is_blank};
ghost use Rattle.sb_base.specs.declared.refusals.Refused.TheVariants.{Fault};
ghost use Rattle.sb_base.specs.Refusals.{Gives};
ghost use Rattle.sb_text.specs.Steps.{ReadsAs, end_at, is_end, later, refused_at, version_at, word_at};
ghost use Rattle.sb_text.specs.Tokens.{Between, End, Next, Word, by_words, place_due, scan, words_of};

use crate::lines::is_blank;
use crate::refusals::TokenFault;
use crate::steps::version_digit;
use sb_base::Refused;
use std::marker::Model;

/// What is left of a line: its words. A `"` is a byte like any other.
#[derive(Drop)]
pub struct Words<'a> {
    rest: &'a [u8],
}

impl<'a> Model for Words<'a> {
    ghost use Rattle.sb_text.specs.TokenCodes.{lexemes_code};
    ghost use Rattle.sb_text.specs.Tokens.{Lexemes, words_of};

    ghost Value = { Lexemes };

    ghost coded = { lexemes_code };

    ghost view = { λ w. words_of w.rest.now };
}

// The bytes without the blanks that they begin with.
fn without_blanks(bytes: &[u8]) -> &[u8]
    ensures words { scan by_words (Between (length bytes.now)) result.now ≡ words_of bytes.now }
    ensures starts { 0 < length result.now → is_blank (slice_index result.now 0) ≡ false }
{
    let mut rest = bytes;
    while let Some((first, later)) = rest.split_first() {
        if !is_blank(*first) {
            return rest;
        }
        rest = later;
    }
    rest
}

// How many bytes are before the first blank, all if there is none.
fn word_len(bytes: &[u8]) -> usize
    ensures value { result ≡ position_or_len is_blank bytes.now }
    ensures within { result ≤ length bytes.now }
{
    bytes
        .iter()
        .position(|byte| is_blank(*byte))
        .unwrap_or(bytes.len())
}

// The word that the bytes begin with, and what follows it.
#[tactic(auto, using(crate::proofs::WordLemmas::words_at_first))]
fn cut_word(bytes: &[u8]) -> (&[u8], &[u8])
    requires some { 0 < length bytes.now }
    requires starts { is_blank (slice_index bytes.now 0) ≡ false }
    ensures { (end : ℕ) → scan by_words (Between end) bytes.now ≡ Next (length bytes.now) (Word result.0.now) (words_of result.1.now) }
{
    bytes.split_at(word_len(bytes))
}

impl<'a> Words<'a> {
    /// The words of a line.
    pub fn new(line: &'a [u8]) -> Words<'a>
        ensures { result ≡ words_of line.now }
    {
        Words { rest: line }
    }

    /// The same words, to go back to.
    pub fn copy(&self) -> Words<'a>
        ensures { result ≡ self.now }
    {
        Words { rest: self.rest }
    }

    /// The next word, which is passed.
    pub fn next_word(&mut self) -> Option<&'a [u8]>
        ensures { MatchOption result ((self.old ≡ End (place_due self.old)) × (self.new ≡ self.old))
            (λ word. self.old ≡ Next (place_due self.old) (Word word.now) self.new) }
    {
        let begun = without_blanks(self.rest);
        if begun.is_empty() {
            return None;
        }
        let (word, later) = cut_word(begun);
        self.rest = later;
        Some(word)
    }

    /// Passes the next word, if there is one.
    pub fn pass(&mut self)
        ensures { self.new ≡ later self.old }
    {
        self.next_word();
    }

    /// The place of the next word, or, if there is none, where the last word of the line ends: the number of bytes from there to the line's end.
    #[tactic(auto, using(crate::proofs::WordLemmas::place_begun))]
    pub fn place(&self) -> usize
        ensures { result ≡ place_due self.now }
    {
        let begun = without_blanks(self.rest);
        if begun.is_empty() {
            self.rest.len()
        } else {
            begun.len()
        }
    }

    /// This refusal, with its fault at the next word, or where the last one ends if there is none.
    pub fn refuse<K: Drop>(&self, refused: Refused<K>) -> Refused<TokenFault<K>>
        ensures { result ≡ refused_at self.now refused }
    {
        match refused {
            Refused::Fault(kind) => self.fail(kind),
            Refused::NoMemory => Refused::NoMemory,
        }
    }

    /// This fault at the next word, or where the last one ends if there is none.
    pub fn fail<K: Drop>(&self, kind: K) -> Refused<TokenFault<K>>
        ensures { result ≡ Fault (record { place = place_due self.now; kind = kind }) }
    {
        Refused::Fault(TokenFault {
            place: self.place(),
            kind,
        })
    }

    /// A word: its bytes. `missing` is the fault of none.
    pub fn word<K: Drop>(&mut self, missing: K) -> Result<&'a [u8], Refused<TokenFault<K>>>
        ensures { (quoted bad : K) → ReadsAs (λ word. word.now) (word_at quoted bad missing self.old) result self.new }
    {
        match self.next_word() {
            Some(word) => Ok(word),
            None => Err(self.fail(missing)),
        }
    }

    /// Whether the line ends here.
    pub fn is_end(&self) -> bool
        ensures { result ≡ is_end self.now }
    {
        self.copy().next_word().is_none()
    }

    /// The line has to end here. `extra` is the fault of an extra word.
    pub fn expect_end<K: Drop>(&self, extra: K) -> Result<(), Refused<TokenFault<K>>>
        ensures { (bad : K) → Gives (end_at extra bad self.now) result }
    {
        match self.copy().next_word() {
            None => Ok(()),
            Some(_) => Err(self.fail(extra)),
        }
    }
}

/// The version that a first line of these words names: the word `name`, and `1`.
///
/// # Errors
/// `Fault` with this kind exactly if it names none, at the first word that departs.
pub fn version_in_words<K: Copy + Drop>(
    kind: K,
    name: &[u8],
    line: &Words,
) -> Result<u32, Refused<TokenFault<K>>>
    ensures { Gives (version_at kind name.now 1 line.now) result }
{
    let mut words = line.copy();
    match words.next_word() {
        Some(word) if word == name => {}
        _ => return Err(line.fail(kind)),
    }
    let due = words.copy();
    let Some(digit) = words.next_word() else {
        return Err(due.fail(kind));
    };
    let Some(version) = version_digit(1, digit) else {
        return Err(due.fail(kind));
    };
    let end = words.copy();
    match words.next_word() {
        None => Ok(version),
        Some(_) => Err(end.fail(kind)),
    }
}
