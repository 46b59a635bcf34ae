// Strings that stand for all strings.
ghost use Rattle.std.specs.Prelude.{◌≡◌, true, IfNone, IfOk, IfSome};
ghost use Rattle.std.specs.List.{list_all};
ghost use Rattle.sb_cover.specs.Choices.{AreTexts};
ghost use Rattle.sb_cover.specs.Shown.{is_shown};

use crate::asked_conds::CondTable;
use crate::budgets::{Budget, explore_within};
use crate::open_rules::OpenQuestion;
use crate::picking::{Picked, pick_all};
use crate::text_machines::TextMachine;
use sb_base::NoMemory;
use std::alloc::Global;

/// Strings that stand for all that are accepted from a mode: each other one has the label of one of these, which is not longer. None if the budget is
/// exceeded.
///
/// # Errors
/// `NoMemory` if there was none for the strings.
pub(crate) fn text_choices(
    alloc: Global,
    table: &CondTable,
    questions: &[OpenQuestion],
    first: u32,
    budget: &mut Budget,
) -> Result<Option<Picked>, NoMemory>
    ensures all { IfOk result (λ picked. IfSome picked (λ picked. AreTexts table.now.conds.items first questions.now picked.values.items picked.labels.keys)) }
    ensures shown { IfOk result (λ picked. IfSome picked (λ picked. table.now.is_plain ≡ true → list_all is_shown picked.values.items ≡ true)) }
    ensures exceeded { IfOk result (λ picked. IfNone picked (budget.new.is_exceeded ≡ true)) }
{
    let machine = TextMachine {
        table,
        questions,
        first,
    };
    let Some(found) = explore_within(alloc, &machine, budget)? else {
        return Ok(None);
    };
    let picked = pick_all(
        alloc,
        table,
        questions,
        found.states.as_slice(),
        &found.words,
    )?;
    Ok(Some(picked))
}
