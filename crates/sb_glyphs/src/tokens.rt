// Tokens as causes name them.
ghost use Rattle.std.specs.Prelude.{◌≡◌, ◌++◌, OnOk, string_bytes};
ghost use Rattle.sb_glyphs.specs.Tokens.{is_char, is_blank_glyph, until, first_token, quoted, quoted_token, quoted_bytes};

use crate::excerpts::{dots, first_glyphs};
use crate::glyphs::{Glyph, first_glyphs_of, put_glyphs};
use sb_base::NoMemory;

/// How many characters of a token are shown at most.
const MAX_NAMED: usize = 40;

fn is_quote(glyph: Glyph) -> bool
    ensures { result ≡ is_char 34 glyph }
{
    matches!(glyph, Glyph::Char('"'))
}

fn is_blank(glyph: Glyph) -> bool
    ensures { result ≡ is_blank_glyph glyph }
{
    matches!(glyph, Glyph::Char(' ' | '\t'))
}

fn until_quote(glyphs: &[Glyph]) -> &[Glyph]
    ensures { result.now ≡ until (is_char 34) glyphs.now }
{
    let mut n = 0;
    while n < glyphs.len() && !is_quote(glyphs[n]) {
        n += 1;
    }
    &glyphs[..n]
}

fn until_blank(glyphs: &[Glyph]) -> &[Glyph]
    ensures { result.now ≡ until is_blank_glyph glyphs.now }
{
    let mut n = 0;
    while n < glyphs.len() && !is_blank(glyphs[n]) {
        n += 1;
    }
    &glyphs[..n]
}

// The first token of glyphs, of which the first is no blank.
fn first_token(glyphs: &[Glyph]) -> &[Glyph]
    ensures { result.now ≡ first_token glyphs.now }
{
    match glyphs.split_first() {
        Some((first, later)) if is_quote(*first) => until_quote(later),
        _ => until_blank(glyphs),
    }
}

// Appends `"`, what is shown of glyphs, at most of 40, with `..` if there are more, and `"`.
fn put_quoted_glyphs(out: &mut String, glyphs: &[Glyph]) -> Result<(), NoMemory>
    ensures { OnOk result (string_bytes out.new ≡ string_bytes out.old ++ quoted glyphs.now) }
{
    out.push('"')?;
    put_glyphs(out, first_glyphs(glyphs, MAX_NAMED))?;
    out.push_str(dots(glyphs.len() > MAX_NAMED))?;
    out.push('"')?;
    Ok(())
}

/// Appends the first token of glyphs, of which the first is no blank, between quotes: at most 40 characters, with `..` if there are more.
pub fn put_first_token(out: &mut String, glyphs: &[Glyph]) -> Result<(), NoMemory>
    ensures { OnOk result (string_bytes out.new ≡ string_bytes out.old ++ quoted_token glyphs.now) }
{
    put_quoted_glyphs(out, first_token(glyphs))
}

/// Appends bytes between quotes as they are shown: at most 40 characters, with `..` if there are more.
///
/// # Errors
/// `NoMemory` if there was none for the bytes.
#[tactic(auto, using(crate::proofs::Named::quoted_front))]
pub fn put_quoted(out: &mut String, bytes: &[u8]) -> Result<(), NoMemory>
    ensures { OnOk result (string_bytes out.new ≡ string_bytes out.old ++ quoted_bytes bytes.now) }
{
    let glyphs = first_glyphs_of(*out.allocator(), bytes, MAX_NAMED + 1)?;
    put_quoted_glyphs(out, &glyphs)
}
