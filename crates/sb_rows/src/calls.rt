// Readers of calls and their arguments, and how words of bytes are written.

use crate::faults::RowFault;
use crate::readers::{number, wide};
use sb_call::{Arg, Args, CallTag, tag_of_word};
use std::alloc::Global;
use std::str;

// An argument: a number, or a string between quotes. A blank, `"` or `|` in a string is written by its number.
fn arg(alloc: Global, word: &str) -> Result<Arg, RowFault> {
    match unquoted(word) {
        Some(text) => Ok(Arg::Str(wide(alloc, text)?)),
        None => Ok(Arg::Num(number(word)?)),
    }
}

// The text between the quotes of a word that begins and ends with one.
fn unquoted(word: &str) -> Option<&str> {
    word.strip_prefix('"')?.strip_suffix('"')
}

/// A call as scripts write it: its word and its arguments, separated by blanks. The arguments need not fit the call.
pub fn call(alloc: Global, text: &str) -> Result<(CallTag, Args), RowFault> {
    let mut words = text.split_whitespace();
    let name = words.next().unwrap_or("");
    let Some(tag) = tag_of_word(name.as_bytes()) else {
        return Err(RowFault::BadWords);
    };
    let mut args = Args::empty(alloc);
    for word in words {
        args.push(arg(alloc, word)?)?;
    }
    Ok((tag, args))
}

/// Appends a word, the bytes of which are UTF-8.
pub fn put_word(out: &mut String, word: &[u8]) -> Result<(), RowFault> {
    match str::from_utf8(word) {
        Ok(text) => Ok(out.push_str(text)?),
        Err(_) => Err(RowFault::BadText),
    }
}
