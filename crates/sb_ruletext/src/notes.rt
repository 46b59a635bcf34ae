// The notes of a text, in its order.
ghost use Rattle.std.specs.Prelude.{◌≡◌, ◌+◌, ◌<◌, ◌^◌, ◌++◌, false, length, true, IfOk, MatchOption, OnOk};
ghost use Rattle.std.specs.List.{flat_map};
ghost use Rattle.sb_ruletext.specs.Notes.{follows_is, is_about_names, is_read, note_at, notes_in, notes_of, notes_on, noted};
ghost use Rattle.sb_text.specs.Tokens.{lexeme_of};

use crate::note_kinds::{NoteKind, kind_of_quoted};
use sb_base::NoMemory;
use sb_text::{Layout, Line, Lines, Token, Tokens, column_at, text_of};
use std::alloc::Global;

/// A warning of a pattern on names, which is no fault.
#[derive(Clone, Copy)]
pub struct Note {
    /// The line of the text, from 1.
    pub line: u32,
    /// The character of the line, from 1, that is the opening quote of the pattern.
    pub column: u32,
    /// What is noted.
    pub kind: NoteKind,
}

// Whether the patterns of a line are on names: that of `ping` is on a text.
fn is_about_names(tokens: &Tokens) -> bool
    ensures { result ≡ is_about_names tokens.now }
{
    let mut later = tokens.copy();
    later.pass();
    !later.begins_with(b"ping")
}

// Whether a token is the word `is`.
fn is_equality(token: Token<'_>) -> bool
    ensures { result ≡ follows_is (lexeme_of token.entry) }
{
    match token {
        Token::Word(word) => word == b"is".as_slice(),
        Token::Quoted(_) | Token::Bad => false,
    }
}

// What is noted of a token: of a quoted one that is no string.
fn kind_at(alloc: Global, is_string: bool, token: Token<'_>) -> Result<Option<NoteKind>, NoMemory>
    ensures { IfOk result (λ kind. kind ≡ note_at is_string (lexeme_of token.entry)) }
{
    match token {
        Token::Quoted(quoted) if !is_string => kind_of_quoted(alloc, quoted),
        _ => Ok(None),
    }
}

// Appends the note of the token at a place of a line, if there is one.
fn put_noted(
    notes: &mut Vec<Note>,
    line: &Line,
    place: usize,
    kind: Option<NoteKind>,
) -> Result<(), NoMemory>
    requires { length line.now.text.now + 1 < 2 ^ 32 }
    ensures { OnOk result (notes.new.items ≡ notes.old.items
        ++ noted (record { number = line.now.number; text = line.now.text.now }) place kind) }
{
    if let Some(kind) = kind {
        notes.push(Note {
            line: line.number,
            column: column_at(Layout::Text, line.text.as_bytes(), place),
            kind,
        })?;
    }
    Ok(())
}

// Appends the notes of the tokens of a line.
#[tactic(auto, using(crate::proofs::NoteWalks::token_passed, crate::proofs::NoteWalks::tokens_ended, crate::proofs::NoteWalks::fewer))]
fn put_notes_in(
    alloc: Global,
    notes: &mut Vec<Note>,
    line: &Line,
    tokens: Tokens<'_>,
) -> Result<(), NoMemory>
    requires { length line.now.text.now + 1 < 2 ^ 32 }
    ensures { OnOk result (notes.new.items ≡ notes.old.items
        ++ notes_in (record { number = line.now.number; text = line.now.text.now }) false tokens.entry) }
{
    let mut tokens = tokens;
    let mut is_string = false;
    while let Some(token) = tokens.peek() {
        let kind = kind_at(alloc, is_string, token)?;
        put_noted(notes, line, tokens.place(), kind)?;
        is_string = is_equality(token);
        tokens.pass();
    }
    Ok(())
}

// Appends the notes of a line.
fn put_notes_on(alloc: Global, notes: &mut Vec<Note>, line: &Line) -> Result<(), NoMemory>
    requires { length line.now.text.now + 1 < 2 ^ 32 }
    ensures { OnOk result (notes.new.items ≡ notes.old.items
        ++ notes_on (record { number = line.now.number; text = line.now.text.now })) }
{
    let tokens = line.tokens();
    if is_about_names(&tokens) {
        put_notes_in(alloc, notes, line, tokens)?;
    }
    Ok(())
}

// The notes of lines.
#[tactic(auto, using(crate::proofs::NoteWalks::line_passed, crate::proofs::NoteWalks::lines_ended))]
fn notes_of_lines(alloc: Global, lines: Lines<'_>) -> Result<Vec<Note>, NoMemory>
    ensures { IfOk result (λ notes. notes.items ≡ flat_map notes_on lines.entry) }
{
    let mut lines = lines;
    let mut notes = Vec::new(alloc);
    while let Some(line) = lines.next_line() {
        put_notes_on(alloc, &mut notes, &line)?;
    }
    Ok(notes)
}

// The text of bytes, if they are one of fewer than 2^32 - 1 bytes.
fn read_text(bytes: &[u8]) -> Option<&str>
    ensures { MatchOption result (is_read bytes.now ≡ false)
        (λ text. (is_read bytes.now ≡ true) × (text.now ≡ bytes.now) × (length text.now + 1 < 2 ^ 32)) }
{
    if bytes.len() >= u32::MAX as usize {
        return None;
    }
    text_of(bytes).ok()
}

/// The notes of a policy text, in its order: one for each pattern on names that begins with `\??\` without escapes, or with neither `\`, `*` nor `?`.
///
/// A text with a fault has notes too, as if the quoted tokens in it were patterns, except after `is`; one that is not UTF-8, or has 2^32 - 1
/// bytes or more, has none. The time is linear in the text, if no line has more patterns than a rule may have.
///
/// # Errors
/// `NoMemory` if there was none for the notes, or for the units of a pattern.
pub fn read_notes(alloc: Global, text: &[u8]) -> Result<Vec<Note>, NoMemory>
    ensures { IfOk result (λ notes. notes.items ≡ notes_of text.now) }
{
    match read_text(text) {
        Some(text) => notes_of_lines(alloc, Lines::new(text)),
        None => Ok(Vec::new(alloc)),
    }
}
