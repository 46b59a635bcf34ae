// A line, read.
ghost use Rattle.std.specs.Prelude.{◌≡◌, IfOk};
ghost use Rattle.sb_transcript.specs.Reading.{candidate, line_of_word, is_text_of, line_of};
ghost use Rattle.sb_transcript.specs.Steps.{Becomes};

use crate::cuts::{Fields, first_field};
use crate::read_lines::Line;
use crate::reading_entries::entry_line_at;
use crate::reading_results::{result_line_at, totals_line_at};
use crate::unread::Unread;
use crate::writing::put_line;
use sb_base::NoMemory;
use std::alloc::Global;

// The line that a word begins, and whose other fields follow. Only `line_of` says that it has this text.
fn line_of_word(alloc: Global, word: &[u8], fields: &mut Fields) -> Result<Line, Unread>
    ensures { Becomes (line_of_word word.now fields.old) result }
{
    if word == b"entry".as_slice() {
        let line = entry_line_at(alloc, fields)?;
        return Ok(Line::Entry(line));
    }
    if word == b"result".as_slice() {
        let line = result_line_at(fields)?;
        return Ok(Line::Result(line));
    }
    let line = totals_line_at(fields)?;
    Ok(Line::Totals(line))
}

// The only line that may have this text.
fn candidate(alloc: Global, bytes: &[u8]) -> Result<Line, Unread>
    ensures { Becomes (candidate bytes.now) result }
{
    let (word, mut fields) = first_field(b' ', bytes);
    line_of_word(alloc, word, &mut fields)
}

// Whether this is what is written of a line.
fn is_text_of(alloc: Global, line: &Line, bytes: &[u8]) -> Result<bool, NoMemory>
    ensures { IfOk result (λ same. same ≡ is_text_of line.now bytes.now) }
{
    let mut text = Vec::with_capacity(alloc, bytes.len())?;
    put_line(&mut text, line)?;
    Ok(text.as_slice() == bytes)
}

/// The line of a transcript that is written as exactly these bytes, which are without its LF, and none if no line is.
///
/// # Errors
/// `NoMemory` if there was none for the line's strings, its arguments, or a copy of its text.
pub fn read_line(alloc: Global, bytes: &[u8]) -> Result<Option<Line>, NoMemory>
    ensures { IfOk result (λ line. line ≡ line_of bytes.now) }
{
    match candidate(alloc, bytes) {
        Ok(line) => {
            if is_text_of(alloc, &line, bytes)? {
                Ok(Some(line))
            } else {
                Ok(None)
            }
        }
        Err(Unread::NotALine) => Ok(None),
        Err(Unread::NoMemory) => Err(NoMemory),
    }
}
