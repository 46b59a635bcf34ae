// What is shown of a line, and the caret under a place of it.
ghost use Rattle.std.specs.Prelude.{◌≡◌, ◌≤◌, ◌-◌, ◌++◌, [], length, take, drop, replicate, OnOk, IfOk, string_bytes};
ghost use Rattle.sb_glyphs.specs.Excerpts.{window_start, dots, excerpt_from, excerpt_in, width, blanks_under, caret_from, caret_in, excerpt_lines_in};

use crate::glyphs::{Glyph, is_tab, put_glyph, put_glyphs};
use sb_base::NoMemory;
use unicode_width::UnicodeWidthStr;

/// How many glyphs of a line are shown at most.
pub const MAX_GLYPHS: usize = 120;

/// How many glyphs of a line, from at most 120 before a place on, are enough for what is shown round it.
pub const MAX_NEAR: usize = 240;

/// How many of them precede the place at most, if as many follow.
const MAX_BEFORE: usize = 60;

// The place of the first glyph that is shown.
fn window_start(place: usize, count: usize) -> usize
    ensures value { result ≡ window_start place count }
    ensures within { result ≤ count }
{
    place
        .saturating_sub(MAX_BEFORE)
        .min(count.saturating_sub(MAX_GLYPHS))
}

/// The first n glyphs, or all if there are fewer.
pub(crate) fn first_glyphs(glyphs: &[Glyph], n: usize) -> &[Glyph]
    ensures { result.now ≡ take n glyphs.now }
{
    match glyphs.get(..n) {
        Some(first) => first,
        None => glyphs,
    }
}

/// Dots, if something is left out.
pub(crate) fn dots(left_out: bool) -> &'static str
    ensures { result.now ≡ dots left_out }
{
    if left_out { ".." } else { "" }
}

/// Appends what is shown of glyphs round a place, from 0: all of them, or 120 with `..` where something is left out. `others` is whether there are
/// glyphs before them.
pub fn put_excerpt(
    out: &mut String,
    others: bool,
    place: usize,
    glyphs: &[Glyph],
) -> Result<(), NoMemory>
    ensures { OnOk result (string_bytes out.new ≡ string_bytes out.old ++ excerpt_in others place glyphs.now) }
{
    let start = window_start(place, glyphs.len());
    let rest = &glyphs[start..];
    out.push_str(dots(others || start > 0))?;
    put_glyphs(out, first_glyphs(rest, MAX_GLYPHS))?;
    out.push_str(dots(rest.len() > MAX_GLYPHS))?;
    Ok(())
}

fn put_spaces(out: &mut String, count: usize) -> Result<(), NoMemory>
    ensures { OnOk result (string_bytes out.new ≡ string_bytes out.old ++ replicate count 32) }
{
    for _space in 0..count {
        out.push(' ')?;
    }
    Ok(())
}

// Appends spaces as wide as a text.
fn put_blanks(out: &mut String, text: &str) -> Result<(), NoMemory>
    ensures { OnOk result (string_bytes out.new ≡ string_bytes out.old ++ replicate (width text.now) 32) }
{
    put_spaces(out, text.width())
}

// Appends spaces as wide as a text and then glyphs are shown, in which tabs stay tabs.
fn put_blanks_under(out: &mut String, text: String, glyphs: &[Glyph]) -> Result<(), NoMemory>
    ensures { OnOk result (string_bytes out.new ≡ string_bytes out.old ++ blanks_under (string_bytes text) glyphs.now) }
{
    let mut text = text;
    for glyph in glyphs {
        if is_tab(*glyph) {
            put_blanks(out, text.as_str())?;
            out.push('\t')?;
            text.clear();
        } else {
            put_glyph(&mut text, *glyph)?;
        }
    }
    put_blanks(out, text.as_str())
}

/// Appends the caret under a place, from 0, of glyphs that are shown round it: as far to the right as what is shown before the place is wide in a
/// terminal, where tabs are repeated.
pub(crate) fn put_caret(
    out: &mut String,
    others: bool,
    place: usize,
    glyphs: &[Glyph],
) -> Result<(), NoMemory>
    ensures { OnOk result (string_bytes out.new ≡ string_bytes out.old ++ caret_in others place glyphs.now) }
{
    let start = window_start(place, glyphs.len());
    let text = String::from_str(*out.allocator(), dots(others || start > 0))?;
    let before = first_glyphs(&glyphs[start..], place.saturating_sub(start));
    put_blanks_under(out, text, before)?;
    out.push('^')?;
    Ok(())
}

/// Appends what is shown of glyphs round a place, and the caret under it.
pub fn put_excerpt_lines(
    out: &mut String,
    others: bool,
    place: usize,
    glyphs: &[Glyph],
) -> Result<(), NoMemory>
    ensures { OnOk result (string_bytes out.new ≡ string_bytes out.old ++ excerpt_lines_in others place glyphs.now) }
{
    put_excerpt(out, others, place, glyphs)?;
    out.push('\n')?;
    put_caret(out, others, place, glyphs)?;
    out.push('\n')?;
    Ok(())
}
