// The message of a fault of a text.
ghost use Rattle.std.specs.Prelude.{◌≡◌, ◌++◌, IfOk, OnOk, string_bytes};
ghost use Rattle.sb_message.specs.Messages.{text_word, headline, first_line, column_text, place_line, message_with};

use sb_base::NoMemory;
use sb_glyphs::{put_decimal_text, put_shown};
use std::alloc::Global;

/// A text that may have a fault.
#[derive(Clone, Copy)]
pub enum FaultyText {
    /// A policy text, whose columns count characters.
    Policy,
    /// A script text, whose columns count characters.
    Script,
    /// A schedule text, whose columns count bytes.
    Schedule,
    /// A file of links, whose columns count characters.
    Links,
    /// A file of moves, whose columns count characters.
    Moves,
}

/// A fault of a text: its kind by its number, and where it is.
#[derive(Clone, Copy)]
pub struct NumberedFault {
    /// The text.
    pub text: FaultyText,
    /// The line, from 1.
    pub line: u32,
    /// The column, from 1, or 0 if no place in a line is meant.
    pub column: u32,
    /// The number of the kind, from 1.
    pub kind: u64,
}

fn text_word(text: FaultyText) -> &'static str
    ensures { result.now ≡ text_word text }
{
    match text {
        FaultyText::Policy => "policy",
        FaultyText::Script => "script",
        FaultyText::Schedule => "schedule",
        FaultyText::Links => "links",
        FaultyText::Moves => "moves",
    }
}

// Appends the first line up to the cause.
fn put_headline(out: &mut String, fault: NumberedFault) -> Result<(), NoMemory>
    ensures { OnOk result (string_bytes out.new ≡ string_bytes out.old ++ headline fault) }
{
    out.push_str("sandbox: ")?;
    out.push_str(text_word(fault.text))?;
    out.push_str(" line ")?;
    put_decimal_text(out, u64::from(fault.line))?;
    out.push_str(" fault ")?;
    put_decimal_text(out, fault.kind)
}

// Appends the first line.
fn put_first_line(out: &mut String, fault: NumberedFault, cause: &str) -> Result<(), NoMemory>
    ensures { OnOk result (string_bytes out.new ≡ string_bytes out.old ++ first_line fault cause.now) }
{
    put_headline(out, fault)?;
    out.push_str(": ")?;
    out.push_str(cause)?;
    out.push('\n')?;
    Ok(())
}

fn put_column(out: &mut String, column: u32) -> Result<(), NoMemory>
    ensures { OnOk result (string_bytes out.new ≡ string_bytes out.old ++ column_text column) }
{
    if column > 0 {
        out.push(':')?;
        put_decimal_text(out, u64::from(column))?;
    }
    Ok(())
}

/// Appends the line with the place; no column is meant if it is 0.
pub(crate) fn put_place_line(
    out: &mut String,
    file: &[u8],
    line: u32,
    column: u32,
) -> Result<(), NoMemory>
    ensures { OnOk result (string_bytes out.new ≡ string_bytes out.old ++ place_line file.now line column) }
{
    out.push_str("  --> ")?;
    put_shown(out, file)?;
    out.push(':')?;
    put_decimal_text(out, u64::from(line))?;
    put_column(out, column)?;
    out.push('\n')?;
    Ok(())
}

/// The message of a fault of a text: a line that names the fault with its cause, the place in the file, whose name is as the user gave it, and these
/// lines.
pub(crate) fn text_message(
    alloc: Global,
    fault: NumberedFault,
    cause: &str,
    file: &[u8],
    lines: &str,
) -> Result<String, NoMemory>
    ensures { IfOk result (λ message. string_bytes message ≡ message_with fault cause.now file.now lines.now) }
{
    let mut message = String::new(alloc);
    put_first_line(&mut message, fault, cause)?;
    put_place_line(&mut message, file, fault.line, fault.column)?;
    message.push_str(lines)?;
    Ok(message)
}
