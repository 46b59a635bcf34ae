// The lines of the statements in the text of a script.
ghost use Rattle.std.specs.Prelude.{◌≡◌, ◌+◌, ◌<◌, ◌^◌, length, IfOk};
ghost use Rattle.sb_explain.specs.Sources.{begins_statement, statement_lines};
ghost use Rattle.sb_scripttext.specs.Lines.{is_statement_word};

use sb_base::NoMemory;
use sb_text::{ByteLine, ByteLines};
use std::alloc::Global;

// Whether the word begins a statement.
fn is_statement_word(word: &[u8]) -> bool
    ensures { result ≡ is_statement_word word.now }
{
    word == b"call".as_slice()
        || word == b"store".as_slice()
        || word == b"exchange".as_slice()
        || word == b"load".as_slice()
        || word == b"wait".as_slice()
}

// Whether the first word of a line begins a statement.
fn begins_statement(line: &ByteLine<'_>) -> bool
    ensures { result ≡ begins_statement line.now.text.now }
{
    match line.words().next_word() {
        Some(word) => is_statement_word(word),
        None => false,
    }
}

/// The numbers of the lines, from 1, that are statements, in the order of the text of a script, which is that of its targets, threads and places. The text has
/// fewer than 2^32 - 1 bytes.
///
/// # Errors
/// `NoMemory` if there was none for the numbers.
pub fn statement_lines(alloc: Global, text: &[u8]) -> Result<Vec<u32>, NoMemory>
    requires short { length text.now + 1 < 2 ^ 32 }
    ensures { IfOk result (λ lines. lines.items ≡ statement_lines text.now) }
{
    let mut rest = ByteLines::new(text);
    let mut lines = Vec::new(alloc);
    while let Some(line) = rest.next_line() {
        if begins_statement(&line) {
            lines.push(line.number)?;
        }
    }
    Ok(lines)
}
