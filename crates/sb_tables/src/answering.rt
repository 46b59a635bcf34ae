// A book that answers copies of calls.
ghost use Rattle.std.specs.Prelude.{OnOk};
ghost use Rattle.sb_tables.specs.Answering.{CanAnswer};

use sb_base::NoMemory;
use sb_block::BlockCopy;
use sb_book::{Book, ReadyScript, decide};
use sb_compile::Programs;
use sb_rows::RowFault;
use sb_rule::Judge;
use std::alloc::Global;

/// A new book after this many copies were answered: these in turn, and again from the first.
pub fn answered(
    alloc: Global,
    inputs: &ReadyScript,
    copies: &[BlockCopy],
    count: u64,
) -> Result<Book, RowFault> {
    let [target, ..] = inputs.script().targets.as_slice() else {
        return Err(RowFault::BadWords);
    };
    if target.channels == 0 {
        return Err(RowFault::BadWords);
    }
    let judge = Programs::new(alloc, inputs.policies(), inputs.script())?;
    let mut book = Book::new(alloc, inputs.start(alloc)?);
    answer_copies(alloc, &judge, &mut book, copies, count)?;
    Ok(book)
}

// Answers this many copies: these in turn, and again from the first.
fn answer_copies<J: Judge>(
    alloc: Global,
    judge: &J,
    book: &mut Book,
    copies: &[BlockCopy],
    count: u64,
) -> Result<(), RowFault>
    requires { CanAnswer (J.policies judge.now) book.old }
{
    let mut left = copies;
    for _number in 0..count {
        if left.is_empty() {
            left = copies;
        }
        let Some((taken, later)) = left.split_first() else {
            return Err(RowFault::BadWords);
        };
        answer(alloc, judge, book, taken)?;
        left = later;
    }
    Ok(())
}

// Answers a copy by the first channel of the first target.
fn answer<J: Judge>(
    alloc: Global,
    judge: &J,
    book: &mut Book,
    taken: &BlockCopy,
) -> Result<(), NoMemory>
    requires { CanAnswer (J.policies judge.now) book.old }
    ensures { OnOk result (CanAnswer (J.policies judge.now) book.new) }
{
    let decision = decide(alloc, judge, 0, taken)?;
    let _reply = book.answer(0, 0, taken, decision)?;
    Ok(())
}
