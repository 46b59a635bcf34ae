// Covers of the calls of a tag.
ghost use Rattle.std.specs.Prelude.{◌≡◌, true, IfNone, IfOk, IfSome};
ghost use Rattle.std.specs.List.{list_all};
ghost use Rattle.sb_call.specs.Arguments.{fits};
ghost use Rattle.sb_cover.specs.Choices.{is_shown_arg};
ghost use Rattle.sb_cover.specs.Covers.{IsCover};
ghost use Rattle.sb_cover.specs.PlainQuestions.{is_plain_question};

use crate::budgets::Budget;
use crate::call_covers::calls_from;
use crate::labels::label_of;
use crate::opening::open_questions;
use crate::questions::Question;
use crate::residuals::questions_left;
use crate::tables::table_of;
use sb_base::NoMemory;
use sb_call::{Args, CallTag, shape};
use std::alloc::Global;

/// A cover of the calls of a tag: for each call one of these has the same answers to the questions, and none of its strings is longer. A script can have each,
/// if it can have what the rules name. None if the budget is exceeded. So it is if a rule has a text of more than 511 units or there are more than 1,048,576
/// conditions, which no policy file has; and if the strings of the rules name every unit that could be shown in place of others.
///
/// # Errors
/// `NoMemory` if there was none for the calls.
pub fn cover(
    alloc: Global,
    tag: CallTag,
    questions: &[Question],
    budget: &mut Budget,
) -> Result<Option<Vec<Args>>, NoMemory>
    ensures all { IfOk result (λ calls. IfSome calls (λ calls. IsCover tag questions.now calls.items)) }
    ensures fit { IfOk result (λ calls. IfSome calls (λ calls. list_all (fits tag) calls.items ≡ true)) }
    ensures shown { IfOk result (λ calls. IfSome calls (λ calls. list_all is_plain_question questions.now ≡ true → list_all (list_all is_shown_arg) calls.items ≡ true)) }
    ensures exceeded { IfOk result (λ calls. IfNone calls (budget.new.is_exceeded ≡ true)) }
{
    let mut conds = Vec::new(alloc);
    let Some(unread) = open_questions(alloc, &mut conds, tag, questions)? else {
        budget.exceed();
        return Ok(None);
    };
    let Some(table) = table_of(alloc, conds)? else {
        budget.exceed();
        return Ok(None);
    };
    let label = label_of(alloc, &unread, &[])?;
    let left = questions_left(alloc, &table.conds, &unread, label.numbers(), 0)?;
    let calls = calls_from(alloc, &table, shape(tag), 0, &left, budget)?;
    Ok(calls)
}
