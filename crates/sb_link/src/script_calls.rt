// Answers to the calls of a script.
ghost use Rattle.std.specs.Prelude.{◌≡◌, ◌<◌, true, length, slice_index, IfOk, OnOk};
ghost use Rattle.std.specs.List.{list_all};
ghost use Rattle.sb_block.specs.Blocks.{block, encodes};
ghost use Rattle.sb_block.specs.Copies.{whole};
ghost use Rattle.sb_book.specs.Histories.{JudgesBy, setting_of};
ghost use Rattle.sb_link.specs.LinkedHistories.{all_answered};
ghost use Rattle.sb_link.specs.ScriptCalls.{asked_at, asked_by_statements, can_be_asked, have_channels, is_encoded, script_answered};

use crate::linked_books::LinkedBook;
use crate::links::Links;
use sb_actor::mark_at;
use sb_base::NoMemory;
use sb_block::{BlockCopy, encode};
use sb_book::RunStart;
use sb_call::{Arg, CallTag};
use sb_rule::Judge;
use sb_statements::{Statement, StatementCursor, placed_statements_are_sound};
use std::alloc::Global;

// The copy of the whole block of a call that encodes.
fn whole_copy(tag: CallTag, args: &[Arg], mark: u64) -> BlockCopy
    requires { encodes tag args.now ≡ true }
    ensures { result ≡ whole (block tag args.now mark) }
{
    match encode(tag, args, mark) {
        Ok(words) => {
            let end = words.len() as u64;
            BlockCopy::of(args.len() as u64, end, words).unwrap()
        }
        Err(_) => unreachable!(),
    }
}

// Answers a statement, if it is a call, with this mark.
fn answer_statement<J: Judge>(
    alloc: Global,
    book: &mut LinkedBook,
    judge: &J,
    target: u32,
    mark: u64,
    statement: &Statement,
) -> Result<(), NoMemory>
    requires target_there { target < length book.old.history.setting.policies }
    requires channel_there { 0 < slice_index book.old.history.setting.channels target }
    requires judges { JudgesBy (J.policies judge.now) book.old.history }
    requires encoded { is_encoded statement.now ≡ true }
    ensures answered { OnOk result (book.new ≡ all_answered book.old (asked_at target mark statement.now)) }
    ensures setting { OnOk result (book.new.history.setting ≡ book.old.history.setting) }
{
    match statement {
        Statement::Call { tag, args } => {
            let copy = whole_copy(*tag, args.as_slice(), mark);
            book.answer(alloc, judge, target, 0, &copy)?;
            Ok(())
        }
        Statement::Store { .. }
        | Statement::Exchange { .. }
        | Statement::Load { .. }
        | Statement::Wait { .. } => Ok(()),
    }
}

// Answers the calls of these statements, in order.
#[tactic(auto, using(crate::proofs::Asking::answers_join, crate::proofs::Asking::asked_first, crate::proofs::Asking::channel_there))]
fn answer_statements<J: Judge>(
    alloc: Global,
    book: &mut LinkedBook,
    judge: &J,
    statements: StatementCursor<'_>,
) -> Result<(), NoMemory>
    requires channels { have_channels book.old.history.setting ≡ true }
    requires judges { JudgesBy (J.policies judge.now) book.old.history }
    requires asked { list_all (can_be_asked book.old.history.setting) statements ≡ true }
    ensures { OnOk result (book.new ≡ all_answered book.old (asked_by_statements statements.entry)) }
{
    let mut rest = statements;
    while let Some((first, later)) = rest.split_first() {
        let mark = mark_at(first.thread, first.place);
        answer_statement(alloc, book, judge, first.target, mark, first.statement)?;
        rest = later;
    }
    Ok(())
}

/// The book of a ready script whose calls were answered, by target, thread and place, each by the whole block of the call on channel 0,
/// with the mark of its place. Other statements are passed over. The judge has the policies of the script's targets.
///
/// # Errors
/// `NoMemory` if there was none for the answers.
pub fn answer_script<J: Judge>(
    alloc: Global,
    judge: &J,
    start: RunStart<'_>,
    links: Links,
) -> Result<LinkedBook, NoMemory>
    requires judges { J.policies judge.now ≡ (setting_of start.policies start.script).policies }
    ensures { IfOk result (λ book. book ≡ script_answered start.entry.policies start.entry.script links) }
{
    let script = start.ready().script();
    placed_statements_are_sound();
    script.establish_sound();
    let mut book = LinkedBook::new(alloc, start, links);
    answer_statements(alloc, &mut book, judge, script.statements())?;
    Ok(book)
}
