// What a book is to answer.

use sb_block::{BlockCopy, Words, encode};
use sb_call::{Arg, CallTag, fits};
use sb_rows::RowFault;
use sb_statements::Statement;
use std::alloc::Global;

// The mark of the first call of a thread.
const FIRST_MARK: u64 = 65536;

/// The copies of the whole blocks of these calls.
pub fn copies(alloc: Global, statements: &[Statement]) -> Result<Vec<BlockCopy>, RowFault> {
    let mut copies = Vec::new(alloc);
    let mut mark = FIRST_MARK;
    for statement in statements {
        copies.push(copy_with(statement, mark)?)?;
        mark = mark.saturating_add(1);
    }
    Ok(copies)
}

// The copy of the whole block of a call with a mark.
fn copy_with(statement: &Statement, mark: u64) -> Result<BlockCopy, RowFault> {
    let Statement::Call { tag, args } = statement else {
        return Err(RowFault::BadWords);
    };
    let block = block_of(*tag, args.as_slice(), mark)?;
    copy_of(block.as_slice(), block.copy())
}

// The block of a call with a mark.
fn block_of(tag: CallTag, args: &[Arg], mark: u64) -> Result<Words, RowFault> {
    if !fits(tag, args) {
        return Err(RowFault::BadWords);
    }
    match encode(tag, args, mark) {
        Ok(block) => Ok(block),
        Err(_) => Err(RowFault::BadWords),
    }
}

// The copy of these words, if the count of the block was seen before.
fn copy_of(block: &[u64], words: Words) -> Result<BlockCopy, RowFault> {
    let Some(count) = block.get(2) else {
        return Err(RowFault::BadWords);
    };
    let end = words.len() as u64;
    match BlockCopy::of(*count, end, words) {
        Some(copy) => Ok(copy),
        None => Err(RowFault::BadWords),
    }
}
