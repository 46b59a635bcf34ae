// The characters of bytes, and what is shown of them.
ghost use Rattle.std.specs.Prelude.{◌≡◌, ◌<◌, ◌++◌, ◌∷◌, [], length, take, drop, min, IfOk, OnOk, IfSome, MatchOption, string_bytes};
ghost use Rattle.sb_glyphs.specs.Glyphs.{glyphs_of, is_hidden, is_tab, escaped, shown_glyph, shown, shown_bytes};

use crate::numbers::put_hexadecimal_text;
use bstr::decode_utf8;
use sb_base::NoMemory;
use std::alloc::Global;
use ucd_category::GeneralCategory;

/// A character, or a byte that is not part of one.
#[derive(Clone, Copy)]
pub enum Glyph {
    /// A Unicode scalar value.
    Char(char),
    /// A byte at which no character begins.
    Byte(u8),
}

// The first glyph of bytes, and the bytes after it.
#[inline(always)]
#[tactic(auto, using(crate::proofs::Cuts::ascii_cut, crate::proofs::Cuts::byte_cut, crate::proofs::Cuts::size_within, crate::proofs::Cuts::char_shorter))]
fn cut_glyph(bytes: &[u8]) -> Option<(Glyph, &[u8])>
    ensures value { MatchOption result (bytes.now ≡ []) (λ cut. glyphs_of bytes.now ≡ cut.0 ∷ glyphs_of cut.1.now) }
    ensures shorter { IfSome result (λ cut. length cut.1.now < length bytes.now) }
{
    let (first, later) = bytes.split_first()?;
    if *first < 128 {
        return Some((Glyph::Char(char::from(*first)), later));
    }
    match decode_utf8(bytes) {
        (Some(character), size) => {
            let (_, after) = bytes.split_at(size);
            Some((Glyph::Char(character), after))
        }
        (None, _) => Some((Glyph::Byte(*first), later)),
    }
}

/// The first n glyphs of bytes, or all if there are fewer. No byte after them is read.
///
/// # Errors
/// `NoMemory` if there was none for the list.
pub fn first_glyphs_of(alloc: Global, bytes: &[u8], n: usize) -> Result<Vec<Glyph>, NoMemory>
    ensures { IfOk result (λ glyphs. glyphs.items ≡ take n (glyphs_of bytes.now)) }
{
    let mut glyphs = Vec::new(alloc);
    let mut rest = bytes;
    for _glyph in 0..n {
        let Some((glyph, after)) = cut_glyph(rest) else {
            return Ok(glyphs);
        };
        glyphs.push(glyph)?;
        rest = after;
    }
    Ok(glyphs)
}

/// The bytes after the first n glyphs.
#[tactic(auto, using(crate::proofs::Cuts::drop_next))]
pub fn skip_glyphs(bytes: &[u8], n: usize) -> &[u8]
    ensures { glyphs_of result.now ≡ drop n (glyphs_of bytes.now) }
{
    let mut rest = bytes;
    for _glyph in 0..n {
        let Some((_, after)) = cut_glyph(rest) else {
            return rest;
        };
        rest = after;
    }
    rest
}

/// How many glyphs bytes have, counted up to `most`.
pub fn count_glyphs(bytes: &[u8], most: usize) -> usize
    ensures { result ≡ min most (length (glyphs_of bytes.now)) }
{
    let mut rest = bytes;
    for count in 0..most {
        let Some((_, after)) = cut_glyph(rest) else {
            return count;
        };
        rest = after;
    }
    most
}

/// How many glyphs bytes have.
#[tactic(auto, using(crate::proofs::Cuts::glyphs_counted))]
pub fn glyph_count(bytes: &[u8]) -> usize
    ensures { result ≡ length (glyphs_of bytes.now) }
{
    count_glyphs(bytes, bytes.len())
}

// Whether a character is shown by its number: a control or format character except a tab, or one that separates lines or paragraphs.
fn is_hidden(character: char) -> bool
    ensures { result ≡ is_hidden character }
{
    character != '\t'
        && (character.is_control()
            || character == '\u{2028}'
            || character == '\u{2029}'
            || GeneralCategory::for_char(character) == GeneralCategory::Format)
}

/// Whether a glyph is a tab.
pub(crate) fn is_tab(glyph: Glyph) -> bool
    ensures { result ≡ is_tab glyph }
{
    matches!(glyph, Glyph::Char('\t'))
}

// Appends a backslash and a letter with `{`, a number and `}`.
fn put_escaped(out: &mut String, opening: &str, number: u32) -> Result<(), NoMemory>
    ensures { OnOk result (string_bytes out.new ≡ string_bytes out.old ++ escaped opening.now number) }
{
    out.push_str(opening)?;
    put_hexadecimal_text(out, u64::from(number))?;
    out.push('}')?;
    Ok(())
}

fn put_character(out: &mut String, character: char) -> Result<(), NoMemory>
    ensures { OnOk result (string_bytes out.new ≡ string_bytes out.old ++ shown_glyph (Glyph.Char character)) }
{
    if is_hidden(character) {
        return put_escaped(out, "\\u{", u32::from(character));
    }
    out.push(character)?;
    Ok(())
}

/// Appends what is shown of a glyph.
pub(crate) fn put_glyph(out: &mut String, glyph: Glyph) -> Result<(), NoMemory>
    ensures { OnOk result (string_bytes out.new ≡ string_bytes out.old ++ shown_glyph glyph) }
{
    match glyph {
        Glyph::Char(character) => put_character(out, character),
        Glyph::Byte(byte) => put_escaped(out, "\\x{", u32::from(byte)),
    }
}

/// Appends what is shown of glyphs: characters as they are, but control and format characters except a tab, U+2028 and U+2029 as `\u{..}`; and a
/// byte at which no character begins as `\x{..}`.
pub(crate) fn put_glyphs(out: &mut String, glyphs: &[Glyph]) -> Result<(), NoMemory>
    ensures { OnOk result (string_bytes out.new ≡ string_bytes out.old ++ shown glyphs.now) }
{
    for glyph in glyphs {
        put_glyph(out, *glyph)?;
    }
    Ok(())
}

/// Appends what is shown of bytes: characters as they are, but control and format characters except a tab, U+2028 and U+2029 as `\u{..}`; and a byte
/// at which no character begins as `\x{..}`.
///
/// # Errors
/// `NoMemory` if there was none for the bytes.
pub fn put_shown(out: &mut String, bytes: &[u8]) -> Result<(), NoMemory>
    ensures { OnOk result (string_bytes out.new ≡ string_bytes out.old ++ shown_bytes bytes.now) }
{
    let mut rest = bytes;
    while let Some((glyph, after)) = cut_glyph(rest) {
        put_glyph(out, glyph)?;
        rest = after;
    }
    Ok(())
}
