// The tokens of a line, one after another.
ghost use Rattle.std.specs.Prelude.{◌≡◌, ℕ, ◌<◌, ◌≤◌, ◌==◌, [], length, slice_index, false, nat_lt, not, ◌&&◌, ◌||◌, None, Some, true, if◌then◌else◌, IfSome, MatchOption};
ghost use Rattle.sb_text.specs.Lines.{is_blank};
ghost use Rattle.sb_text.specs.Tokens.{by_tokens, tokens_of, at_hand, lexeme_of, scan, Next, Between, InWord, InQuote, AfterQuote, End, place_due};
ghost use Rattle.sb_base.specs.declared.refusals.Refused.TheVariants.{Fault};
ghost use Rattle.sb_text.specs.Columns.{place_within};
ghost use Rattle.sb_text.specs.Steps.{begins_with, later, is_end, refused_at};
ghost use Rattle.sb_text.specs.TokenLaws.{is_quotable};

use crate::columns::bytes_before;
use crate::laws::tokens_are_found;
use crate::lines::{after_ascii, is_blank};
use crate::refusals::TokenFault;
use sb_base::Refused;
use std::marker::Model;

/// A token of a line, or bytes that break the rules for tokens.
#[derive(Clone, Copy)]
pub enum Token<'a> {
    /// The bytes of a word: neither a blank nor a `"` is among them, and they are not empty.
    Word(&'a [u8]),
    /// What is between the two `"` of a quoted token.
    Quoted(&'a str),
    /// A `"` inside a word, or a quoted token that is not closed, that holds a character below 32 or that no blank follows.
    Bad,
}

// Whether a text begins with a blank.
fn starts_with_blank(text: &str) -> bool
    ensures { result ≡ (nat_lt 0 (length text.now) && is_blank (slice_index text.now 0)) }
{
    match text.as_bytes() {
        [first, ..] => is_blank(*first),
        [] => false,
    }
}

// The text without the blanks that it begins with.
#[tactic(auto, using(crate::proofs::Scans::scan_past_blank))]
fn without_blanks(text: &str) -> &str
    ensures tokens { scan by_tokens (Between (length text.now)) result.now ≡ tokens_of text.now }
    ensures starts { 0 < length result.now → is_blank (slice_index result.now 0) ≡ false }
    ensures shorter { length result.now ≤ length text.now }
{
    let mut rest = text;
    while starts_with_blank(rest) {
        rest = after_ascii(rest, 0);
    }
    rest
}

// Whether a word goes on with a byte. Most bytes of words are above `"`, the greatest that ends one.
fn is_in_word(byte: u8) -> bool
    ensures { result ≡ not (is_blank byte || byte == 34) }
{
    byte > b'"' || !matches!(byte, b' ' | b'\t' | b'"')
}

// Whether the byte at a place is a quote.
fn is_quote_at(bytes: &[u8], n: usize) -> bool
    ensures { result ≡ (nat_lt n (length bytes.now) && slice_index bytes.now n == 34) }
{
    match bytes.get(n) {
        Some(byte) => *byte == b'"',
        None => false,
    }
}

// The word that the text begins with, and what follows it.
fn word<'a>(text: &'a str) -> (Token<'a>, &'a str)
    requires some { 0 < length text.now }
    requires starts { is_blank (slice_index text.now 0) ≡ false }
    ensures token { (place : ℕ) → scan by_tokens (InWord place []) text.now ≡ Next place (lexeme_of result.0) (tokens_of result.1.now) }
    ensures shorter { length result.1.now < length text.now }
{
    let bytes = text.as_bytes();
    let mut n = 0;
    while n < bytes.len() && is_in_word(bytes[n]) {
        n += 1;
    }
    if is_quote_at(bytes, n) {
        return (Token::Bad, "");
    }
    (Token::Word(&bytes[..n]), &text[n..])
}

// The text up to the next quote, and what follows that.
fn quoted<'a>(text: &'a str) -> (Token<'a>, &'a str)
    ensures token { (place : ℕ) → scan by_tokens (InQuote place []) text.now ≡ Next place (lexeme_of result.0) (tokens_of result.1.now) }
    ensures shorter { length result.1.now ≤ length text.now }
{
    let bytes = text.as_bytes();
    let mut n = 0;
    while n < bytes.len() && bytes[n] >= 32 {
        if bytes[n] == b'"' {
            return closed(&text[..n], after_ascii(text, n));
        }
        n += 1;
    }
    (Token::Bad, "")
}

// A quoted token, if a blank or nothing follows its second quote.
fn closed<'a>(quoted: &'a str, rest: &'a str) -> (Token<'a>, &'a str)
    ensures token { (place : ℕ) → scan by_tokens (AfterQuote place quoted.now) rest.now ≡ Next place (lexeme_of result.0) (tokens_of result.1.now) }
    ensures shorter { length result.1.now ≤ length rest.now }
{
    match rest.as_bytes() {
        [first, ..] if !is_blank(*first) => (Token::Bad, ""),
        _ => (Token::Quoted(quoted), rest),
    }
}

// The first token of a text that begins with no blank, and what follows it.
fn first_token<'a>(text: &'a str) -> (Token<'a>, &'a str)
    requires some { 0 < length text.now }
    requires starts { is_blank (slice_index text.now 0) ≡ false }
    ensures token { (end : ℕ) → scan by_tokens (Between end) text.now ≡ Next (length text.now) (lexeme_of result.0) (tokens_of result.1.now) }
    ensures shorter { length result.1.now < length text.now }
{
    if text.as_bytes()[0] == b'"' {
        quoted(after_ascii(text, 0))
    } else {
        word(text)
    }
}

// The first token of a text, if there is one, its place, and what follows it. Nothing follows one that breaks the rules. If there is none, the place is
// that of the text.
fn cut_token<'a>(text: &'a str) -> (Option<Token<'a>>, usize, &'a str)
    ensures { tokens_of text.now ≡ at_hand result.0 result.1 (tokens_of result.2.now) }
{
    let begun = without_blanks(text);
    if begun.is_empty() {
        return (None, text.len(), begun);
    }
    let (token, later) = first_token(begun);
    (Some(token), begun.len(), later)
}

/// What is left of a line: its tokens, the next of them at hand, with its place.
#[derive(Drop)]
pub struct Tokens<'a> {
    next: Option<Token<'a>>,
    place: usize,
    rest: &'a str,
}

impl<'a> Model for Tokens<'a> {
    ghost use Rattle.std.specs.Prelude.{◌≡◌, true};
    ghost use Rattle.sb_text.specs.TokenLaws.{are_found};
    ghost use Rattle.sb_text.specs.TokenCodes.{lexemes_code};
    ghost use Rattle.sb_text.specs.Tokens.{Lexemes, tokens_of, at_hand};

    ghost Value = { Lexemes };

    ghost coded = { lexemes_code };

    ghost view = { λ t. at_hand t.next t.place (tokens_of t.rest.now) };

    ghost invariant = { λ t. are_found (at_hand t.next t.place (tokens_of t.rest.now)) ≡ true };
}

impl<'a> Tokens<'a> {
    /// The tokens of a line.
    pub fn new(line: &'a str) -> Tokens<'a>
        ensures { result ≡ tokens_of line.now }
    {
        tokens_are_found();
        let (next, place, rest) = cut_token(line);
        Tokens { next, place, rest }
    }

    /// The same tokens, to go back to.
    #[inline(always)]
    pub fn copy(&self) -> Tokens<'a>
        ensures { result ≡ self.now }
    {
        Tokens {
            next: self.next,
            place: self.place,
            rest: self.rest,
        }
    }

    /// The next token, which is passed. Nothing is left after one that breaks the rules.
    #[tactic(auto, using(crate::proofs::TokenLaws::found_rest, crate::proofs::TokenLaws::sound_next))]
    pub fn next_token(&mut self) -> Option<Token<'a>>
        ensures token { MatchOption result ((self.old ≡ End (place_due self.old)) × (self.new ≡ self.old))
            (λ token. self.old ≡ Next (place_due self.old) (lexeme_of token) self.new) }
        ensures sound { IfSome result (λ token. is_quotable (lexeme_of token) ≡ true) }
    {
        let token = self.next?;
        let (next, place, rest) = cut_token(self.rest);
        self.next = next;
        self.place = place;
        self.rest = rest;
        Some(token)
    }

    /// The next token, which is not passed.
    #[inline(always)]
    pub fn peek(&self) -> Option<Token<'a>>
        ensures { MatchOption result (self.now ≡ End (place_due self.now)) (λ token. self.now ≡ Next (place_due self.now) (lexeme_of token) (later self.now)) }
    {
        self.next
    }

    // The same, with the fact that what is between quotes may be there.
    #[inline(always)]
    #[tactic(auto, using(crate::proofs::TokenLaws::sound_next))]
    pub(crate) fn sound_token(&self) -> Option<Token<'a>>
        ensures token { MatchOption result (self.now ≡ End (place_due self.now)) (λ token. self.now ≡ Next (place_due self.now) (lexeme_of token) (later self.now)) }
        ensures sound { IfSome result (λ token. is_quotable (lexeme_of token) ≡ true) }
    {
        self.next
    }

    /// Passes the next token, if there is one.
    #[inline(always)]
    pub fn pass(&mut self)
        ensures { self.new ≡ later self.old }
    {
        self.next_token();
    }

    /// The place of the next token, or, if there is none, where the last token of the line ends: the number of bytes from there to the line's end.
    #[inline(always)]
    pub fn place(&self) -> usize
        ensures { result ≡ place_due self.now }
    {
        self.place
    }

    /// This refusal, with its fault at the next token, or where the last one ends if there is none.
    #[inline(always)]
    pub fn refuse<K: Drop>(&self, refused: Refused<K>) -> Refused<TokenFault<K>>
        ensures { result ≡ refused_at self.now refused }
    {
        match refused {
            Refused::Fault(kind) => self.fail(kind),
            Refused::NoMemory => Refused::NoMemory,
        }
    }

    /// This fault at the next token, or where the last one ends if there is none.
    #[inline(always)]
    pub fn fail<K: Drop>(&self, kind: K) -> Refused<TokenFault<K>>
        ensures { result ≡ Fault (record { place = place_due self.now; kind = kind }) }
    {
        Refused::Fault(TokenFault {
            place: self.place,
            kind,
        })
    }

    // The place of the character of a UTF-16 unit between the quotes of the next token.
    fn place_within(&self, unit: u32) -> usize
        ensures { result ≡ place_within unit self.now }
    {
        match self.next {
            Some(Token::Quoted(quoted)) => self
                .place
                .saturating_sub(1 + bytes_before(unit, quoted.as_bytes())),
            _ => self.place,
        }
    }

    /// This fault at the character of a UTF-16 unit, from 0, between the quotes of the next token.
    pub fn fail_within<K: Drop>(&self, unit: u32, kind: K) -> Refused<TokenFault<K>>
        ensures { result ≡ Fault (record { place = place_within unit self.now; kind = kind }) }
    {
        Refused::Fault(TokenFault {
            place: self.place_within(unit),
            kind,
        })
    }

    /// Whether the line ends here.
    #[inline(always)]
    pub fn is_end(&self) -> bool
        ensures { result ≡ is_end self.now }
    {
        self.next.is_none()
    }

    /// Whether the line goes on with this word.
    pub fn begins_with(&self, expected: &[u8]) -> bool
        ensures { result ≡ begins_with expected.now self.now }
    {
        match self.next {
            Some(Token::Word(word)) => word == expected,
            _ => false,
        }
    }

    /// Passes a word if the line goes on with it, and returns whether it does.
    pub fn pass_word(&mut self, expected: &[u8]) -> bool
        ensures begins { result ≡ begins_with expected.now self.old }
        ensures rest { self.new ≡ (if result then later self.old else self.old) }
    {
        let begins = self.begins_with(expected);
        if begins {
            self.next_token();
        }
        begins
    }
}
