// What a message shows of the line of a fault.
ghost use Rattle.std.specs.Prelude.{◌≡◌, ◌-◌, ◌++◌, take, drop, IfOk, OnOk, string_bytes};
ghost use Rattle.sb_glyphs.specs.Excerpts.{excerpt_lines_in};
ghost use Rattle.sb_message.specs.Places.{place_of, named_at, if_column, shown_line};
ghost use Rattle.sb_message.specs.Messages.{place_line};

use crate::messages::{FaultyText, put_place_line};
use sb_base::NoMemory;
use sb_glyphs::{
    Glyph, MAX_GLYPHS, MAX_NEAR, count_glyphs, first_glyphs_of, glyph_count, put_excerpt_lines,
    put_first_token, skip_glyphs,
};
use std::alloc::Global;

/// What a message shows of the line of a fault.
pub(crate) struct ShownPlace {
    /// The token at the column, between quotes.
    pub(crate) named: String,
    /// The line with a caret under the column; empty if no column is meant.
    pub(crate) lines: String,
}

impl Drop for ShownPlace {
    fn drop(self) {
        let ShownPlace { named: _, lines: _ } = self;
    }
}

// The bytes before a column, of a line whose columns count bytes.
fn bytes_before(column: u32, line: &[u8]) -> &[u8]
    ensures { result.now ≡ take (column - 1) line.now }
{
    match line.get(..column.saturating_sub(1) as usize) {
        Some(before) => before,
        None => line,
    }
}

// How many glyphs of a line precede a column.
fn place_of(text: FaultyText, column: u32, line: &[u8]) -> usize
    ensures { result ≡ place_of text column line.now }
{
    match text {
        FaultyText::Schedule => glyph_count(bytes_before(column, line)),
        FaultyText::Policy | FaultyText::Script | FaultyText::Links | FaultyText::Moves => {
            column.saturating_sub(1) as usize
        }
    }
}

// The glyphs from a place on.
fn from_place(glyphs: &[Glyph], place: usize) -> &[Glyph]
    ensures { result.now ≡ drop place glyphs.now }
{
    match glyphs.get(place..) {
        Some(rest) => rest,
        None => &[],
    }
}

// Appends what is shown of glyphs round a place, and the caret under it, if a column is meant.
fn put_lines(
    out: &mut String,
    column: u32,
    others: bool,
    place: usize,
    glyphs: &[Glyph],
) -> Result<(), NoMemory>
    ensures { OnOk result (string_bytes out.new ≡ string_bytes out.old ++ if_column column (excerpt_lines_in others place glyphs.now)) }
{
    if column > 0 {
        put_excerpt_lines(out, others, place, glyphs)?;
    }
    Ok(())
}

/// What the message of a fault shows of its line. Of a long line only what is near the column is read as glyphs.
#[tactic(auto, using(crate::proofs::Near::named_near, crate::proofs::Near::lines_near))]
pub(crate) fn shown_place(
    alloc: Global,
    text: FaultyText,
    column: u32,
    line: &[u8],
) -> Result<ShownPlace, NoMemory>
    ensures named { IfOk result (λ shown. string_bytes shown.named ≡ named_at text column line.now) }
    ensures lines { IfOk result (λ shown. string_bytes shown.lines ≡ shown_line text column line.now) }
{
    let place = count_glyphs(line, place_of(text, column, line));
    let skipped = place.saturating_sub(MAX_GLYPHS);
    let near = first_glyphs_of(alloc, skip_glyphs(line, skipped), MAX_NEAR)?;
    let mut named = String::new(alloc);
    put_first_token(&mut named, from_place(&near, place - skipped))?;
    let mut lines = String::new(alloc);
    put_lines(&mut lines, column, skipped > 0, place - skipped, &near)?;
    Ok(ShownPlace { named, lines })
}

/// Appends a place of a text file, whose name is as the user gave it: `  --> FILE:NUMBER:COLUMN`, the line, which has this number, from 1, and a caret
/// under its column. `line` is that line without its line end. If the column is 0, no place in the line is meant, and the line is not shown.
///
/// # Errors
/// `NoMemory` if there was none for the bytes.
pub fn put_place(
    out: &mut String,
    text: FaultyText,
    file: &[u8],
    number: u32,
    column: u32,
    line: &[u8],
) -> Result<(), NoMemory>
    ensures { OnOk result (string_bytes out.new ≡ string_bytes out.old ++ place_line file.now number column ++ shown_line text column line.now) }
{
    put_place_line(out, file, number, column)?;
    let shown = shown_place(*out.allocator(), text, column, line)?;
    out.push_str(shown.lines.as_str())?;
    Ok(())
}
