// Notes in words.
ghost use Rattle.std.specs.Prelude.{◌≡◌, ◌++◌, ◌≤◌, length, take, IfOk, OnOk, string_bytes};
ghost use Rattle.std.specs.List.{flat_map};
ghost use Rattle.sb_message.specs.NoteMessages.{note_headline, note_text, note_words, notes_text, number_text};

use crate::messages::FaultyText;
use crate::places::put_place;
use sb_base::NoMemory;
use sb_glyphs::put_decimal_text;
use sb_ruletext::{Note, NoteKind};
use sb_text::line_or_empty;
use std::alloc::Global;

/// The number of notes that are told one by one. If there are more, their number follows.
pub const MAX_TOLD: usize = 20;

fn note_words(kind: NoteKind) -> &'static str
    ensures { result.now ≡ note_words kind }
{
    match kind {
        NoteKind::UnescapedPrefix => {
            "each ? of \\??\\ matches any unit: write \\/?/?\\ for the prefix itself"
        }
        NoteKind::MatchesNoName => "the pattern matches no name: each name begins with \\",
    }
}

// Appends the first line of a note.
fn put_note_headline(out: &mut String, note: Note) -> Result<(), NoMemory>
    ensures { OnOk result (string_bytes out.new ≡ string_bytes out.old ++ note_headline note) }
{
    out.push_str("sandbox: note: policy line ")?;
    put_decimal_text(out, u64::from(note.line))?;
    out.push_str(": ")?;
    out.push_str(note_words(note.kind))?;
    out.push('\n')?;
    Ok(())
}

// Appends a note: what is noted, the place, and the line with a caret.
#[tactic(auto, unfolding(crate::specs::NoteMessages::note_text))]
fn put_note(out: &mut String, file: &[u8], text: &[u8], note: Note) -> Result<(), NoMemory>
    ensures { OnOk result (string_bytes out.new ≡ string_bytes out.old ++ note_text file.now text.now note) }
{
    put_note_headline(out, note)?;
    let line = line_or_empty(note.line, text);
    put_place(out, FaultyText::Policy, file, note.line, note.column, line)
}

// The first notes, which are told one by one.
fn first_notes(notes: &[Note]) -> &[Note]
    ensures { result.now ≡ take 20 notes.now }
{
    match notes.get(..MAX_TOLD) {
        Some(first) => first,
        None => notes,
    }
}

// Appends notes, one by one.
fn put_notes(out: &mut String, file: &[u8], text: &[u8], notes: &[Note]) -> Result<(), NoMemory>
    ensures { OnOk result (string_bytes out.new ≡ string_bytes out.old ++ flat_map (note_text file.now text.now) notes.now) }
{
    for note in notes {
        put_note(out, file, text, *note)?;
    }
    Ok(())
}

// Appends the number of notes if not all are told one by one.
fn put_number(out: &mut String, number: usize) -> Result<(), NoMemory>
    ensures { OnOk result (string_bytes out.new ≡ string_bytes out.old ++ number_text number) }
{
    if number > MAX_TOLD {
        out.push_str("sandbox: note: ")?;
        put_decimal_text(out, number as u64)?;
        out.push_str(" notes, of which the first 20 are shown\n")?;
    }
    Ok(())
}

/// Notes of a policy text in words, and nothing if there are none: for each of the first 20 what is noted, the place in the file, whose name is as the
/// user gave it, and the line with a caret under the pattern; and if there are more, their number.
///
/// # Errors
/// `NoMemory` if there was none for the message.
pub fn notes_text(
    alloc: Global,
    file: &[u8],
    text: &[u8],
    notes: &[Note],
) -> Result<String, NoMemory>
    ensures { IfOk result (λ message. string_bytes message ≡ notes_text file.now text.now notes.now) }
{
    let mut message = String::new(alloc);
    put_notes(&mut message, file, text, first_notes(notes))?;
    put_number(&mut message, notes.len())?;
    Ok(message)
}
