// Why there is nothing of a text, or of one of its lines.
use std::fmt::Display;
use thiserror::Error;

/// What is wrong with a line, and where.
#[derive(Clone, Copy)]
pub struct TokenFault<K> {
    /// Where the token begins that brings the fault, or, if a token is missing, where the last token of the line ends: the number of bytes from
    /// there to the line's end.
    pub place: usize,
    /// What is wrong there.
    pub kind: K,
}

/// Why a token is not the word that is due.
#[derive(Clone, Copy, Debug)]
pub enum WordFault {
    /// There is no such word.
    Unknown,
    /// The line ends where a token is due.
    Missing,
    /// The line goes on where it has to end.
    Extra,
    /// The token breaks the rules for tokens.
    Broken,
    /// The token is quoted, and may not be.
    Quoted,
    /// The token is not quoted, and has to be.
    Unquoted,
    /// The word is known, but not allowed on this line of the text.
    Misplaced,
    /// The line is allowed only once, and there was one before.
    Repeated,
    /// The first line with tokens does not name a version of its kind of text.
    NoVersion,
}

/// What is wrong with a text, and where.
#[derive(Clone, Copy, Debug, Error)]
#[error("line {line}, column {column}: {kind}")]
#[error_bound(K: Display)]
pub struct LineFault<K> {
    /// The line, from 1.
    pub line: u32,
    /// The character of the line, from 1, at which the token begins that brings the fault; 0 if no place in a line is meant.
    pub column: u32,
    /// What is wrong there.
    pub kind: K,
}
