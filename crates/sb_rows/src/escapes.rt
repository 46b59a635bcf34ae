// Bytes as rows write them, with escapes.

use crate::faults::RowFault;
use std::alloc::Global;

// How far an escape has been read.
#[derive(Clone, Copy)]
enum Escape {
    Outside,
    Begun,
    Number,
    Digit(u8),
}

/// Bytes: the text itself, where `\n`, `\r`, `\t` and `\\` are a line feed, a carriage return, a tab and a backslash, and
/// `\xHH` is the byte of this number.
pub fn bytes(alloc: Global, text: &str) -> Result<Vec<u8>, RowFault> {
    let mut found = Vec::new(alloc);
    let mut escape = Escape::Outside;
    for byte in text.as_bytes() {
        escape = after(escape, *byte, &mut found)?;
    }
    match escape {
        Escape::Outside => Ok(found),
        _ => Err(RowFault::BadEscape),
    }
}

// How far an escape has been read after this byte. What the escape denotes is appended when it ends.
fn after(escape: Escape, byte: u8, found: &mut Vec<u8>) -> Result<Escape, RowFault> {
    match (escape, byte) {
        (Escape::Outside, b'\\') => Ok(Escape::Begun),
        (Escape::Outside, _) => put(byte, found),
        (Escape::Begun, b'x') => Ok(Escape::Number),
        (Escape::Begun, b'n') => put(b'\n', found),
        (Escape::Begun, b'r') => put(b'\r', found),
        (Escape::Begun, b't') => put(b'\t', found),
        (Escape::Begun, b'\\') => put(b'\\', found),
        (Escape::Begun, _) => Err(RowFault::BadEscape),
        (Escape::Number, _) => Ok(Escape::Digit(digit(byte)?)),
        (Escape::Digit(high), _) => put(high << 4 | digit(byte)?, found),
    }
}

fn put(byte: u8, found: &mut Vec<u8>) -> Result<Escape, RowFault> {
    found.push(byte)?;
    Ok(Escape::Outside)
}

fn digit(byte: u8) -> Result<u8, RowFault> {
    match byte {
        b'0'..=b'9' => Ok(byte - b'0'),
        b'a'..=b'f' => Ok(byte - b'a' + 10),
        _ => Err(RowFault::BadEscape),
    }
}
